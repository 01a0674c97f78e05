//! `FrameFault`.
ghost use Rattle.std.specs.Prelude.{◌≡◌};
ghost use Rattle.cool_frame.specs.declared.fault.FrameFault.TheVariants.{Memory as NoMemory};

use cool_base::Memory;
use std::alloc::{AllocError, AllocFailed};
use thiserror::Error;

/// Why bytes were not read as a frame.
#[derive(Clone, Copy, Debug, PartialEq, Eq, Error)]
pub enum FrameFault {
    /// A tile's line and its newline are right, and the bytes behind them are not 4 a pixel.
    #[error("the tile's picture has a wrong length")]
    WrongLength,
    /// The bytes are otherwise no frame.
    #[error("the bytes are no frame")]
    NotAFrame,
    /// No memory was left.
    #[error("out of memory")]
    Memory,
}

impl From<Memory> for FrameFault {
    ghost from_gives = { λ _ fault. fault ≡ NoMemory };

    fn from(_error: Memory) -> FrameFault {
        FrameFault::Memory
    }
}

impl From<AllocError> for FrameFault {
    ghost from_gives = { λ _ fault. fault ≡ NoMemory };

    fn from(_error: AllocError) -> FrameFault {
        FrameFault::Memory
    }
}

impl<T: Drop> From<AllocFailed<T>> for FrameFault {
    ghost from_gives = { λ _ fault. fault ≡ NoMemory };

    fn from(_error: AllocFailed<T>) -> FrameFault {
        FrameFault::Memory
    }
}
