//! The values of this crate: a save, a put, and what the calls answer.
use bytes::Bytes;
use cool_base::{FileId, Memory, Ticket, Token, ViewId};
use outside::Errand;
use std::alloc::{AllocError, AllocFailed};
use thiserror::Error;

/// The most saves of a view that may be unanswered.
pub const MOST_SAVES: usize = 64;

/// A save that is not answered.
#[derive(Drop)]
pub struct Save {
    /// The view that is answered, where one is.
    pub view: Option<ViewId>,
    /// How many inputs the stored content must hold.
    pub mark: u64,
    /// Whether it needs no put where nothing is new.
    pub skip: bool,
    /// With it the content is put.
    pub token: Token,
    /// Whether the put under way is for it.
    pub bound: bool,
}

/// A put under way.
#[derive(Drop)]
pub struct Put {
    pub ticket: Ticket,
    pub file: FileId,
    /// How many inputs the content holds.
    pub number: u64,
    pub content: Bytes,
}

/// What began when the ready saves were served.
#[derive(Drop)]
pub struct Started {
    /// The put that began, where some save needed one.
    pub errand: Option<Errand>,
    /// The views that are answered that nothing was new, in the order of their saves.
    pub unmodified: Vec<ViewId>,
}

/// How a save ended with its put.
#[derive(Clone, Copy, Debug, PartialEq, Eq)]
pub struct SaveAnswer {
    /// The view that is answered, where one is.
    pub view: Option<ViewId>,
    /// How many inputs the put's content holds.
    pub number: u64,
    /// Whether the content was stored.
    pub stored: bool,
}

/// Why a save does not wait.
#[derive(Clone, Copy, Debug, PartialEq, Eq, Error)]
pub enum SaveFault {
    /// The view has `MOST_SAVES` saves that are not answered.
    #[error("too many saves are not answered")]
    SavesFull,
    /// No memory was left.
    #[error("out of memory")]
    Memory,
}

impl From<Memory> for SaveFault {
    ghost use Rattle.std.specs.Prelude.{◌≡◌};
    ghost use Rattle.save_core.specs.declared.values.SaveFault.TheVariants.{Memory as NoMemory};

    ghost from_gives = { λ _ fault. fault ≡ NoMemory };

    fn from(_error: Memory) -> SaveFault {
        SaveFault::Memory
    }
}

impl From<AllocError> for SaveFault {
    ghost use Rattle.std.specs.Prelude.{◌≡◌};
    ghost use Rattle.save_core.specs.declared.values.SaveFault.TheVariants.{Memory as NoMemory};

    ghost from_gives = { λ _ fault. fault ≡ NoMemory };

    fn from(_error: AllocError) -> SaveFault {
        SaveFault::Memory
    }
}

impl<T: Drop> From<AllocFailed<T>> for SaveFault {
    ghost use Rattle.std.specs.Prelude.{◌≡◌};
    ghost use Rattle.save_core.specs.declared.values.SaveFault.TheVariants.{Memory as NoMemory};

    ghost from_gives = { λ _ fault. fault ≡ NoMemory };

    fn from(_error: AllocFailed<T>) -> SaveFault {
        SaveFault::Memory
    }
}
