//! `JoinFault`.
use cool_base::Memory;
use std::alloc::AllocFailed;
use thiserror::Error;

/// Why a view did not join.
#[derive(Clone, Copy, Debug, PartialEq, Eq, Error)]
pub enum JoinFault {
    /// The document has `MOST_VIEWS` views.
    #[error("the document has 64 views")]
    ViewsFull,
    /// No memory was left.
    #[error("out of memory")]
    Memory,
}

impl From<Memory> for JoinFault {
    ghost use Rattle.std.specs.Prelude.{◌≡◌};
    ghost use Rattle.broker_core.specs.declared.faults.JoinFault.TheVariants.{Memory as NoMemory};

    ghost from_gives = { λ _ fault. fault ≡ NoMemory };

    fn from(_error: Memory) -> JoinFault {
        JoinFault::Memory
    }
}

impl<T: Drop> From<AllocFailed<T>> for JoinFault {
    ghost use Rattle.std.specs.Prelude.{◌≡◌};
    ghost use Rattle.broker_core.specs.declared.faults.JoinFault.TheVariants.{Memory as NoMemory};

    ghost from_gives = { λ _ fault. fault ≡ NoMemory };

    fn from(_error: AllocFailed<T>) -> JoinFault {
        JoinFault::Memory
    }
}
