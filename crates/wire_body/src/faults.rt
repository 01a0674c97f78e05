// Why no message was read or written.
ghost use Rattle.std.specs.Prelude.{◌≡◌};
ghost use Rattle.wire_body.specs.declared.faults.HttpFault.TheVariants.{Memory as NoMemory};

use cool_base::Memory;
use outside::WireFault;
use std::alloc::{AllocError, AllocFailed};
use thiserror::Error;

/// Why no message was read from a wire, or none written to it.
#[derive(Clone, Copy, Debug, PartialEq, Eq, Error)]
pub enum HttpFault {
    /// What the bytes say, or a fault of the wire.
    #[error("{0}")]
    Wire(WireFault),
    #[error("out of memory")]
    Memory,
}

impl From<Memory> for HttpFault {
    ghost from_gives = { λ _ fault. fault ≡ NoMemory };

    fn from(_error: Memory) -> HttpFault {
        HttpFault::Memory
    }
}

impl From<AllocError> for HttpFault {
    ghost from_gives = { λ _ fault. fault ≡ NoMemory };

    fn from(_error: AllocError) -> HttpFault {
        HttpFault::Memory
    }
}

impl<T: Drop> From<AllocFailed<T>> for HttpFault {
    ghost from_gives = { λ _ fault. fault ≡ NoMemory };

    fn from(_error: AllocFailed<T>) -> HttpFault {
        HttpFault::Memory
    }
}
