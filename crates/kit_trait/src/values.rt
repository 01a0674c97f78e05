//! What goes into a kit and comes out of it.
ghost use Rattle.std.specs.Prelude.{◌≡◌};
ghost use Rattle.kit_trait.specs.declared.values.LoadFault.TheVariants.{Memory as NoMemory};

use bytes::Bytes;
use cool_base::{Memory, Rect, ViewId};
use std::alloc::{AllocError, AllocFailed};
use thiserror::Error;

/// A picture: 4 · width · height bytes, red, green, blue and alpha of each pixel, row by row.
#[derive(Debug, Drop)]
pub struct Pixels {
    pub width: u32,
    pub height: u32,
    pub rgba: Bytes,
}

/// What a view typed or clicked, in the part where it stood.
#[derive(Clone, Copy, Debug, PartialEq, Eq)]
pub struct Input {
    pub view: ViewId,
    pub part: u32,
    pub what: What,
}

/// The values of one key, or of one button that went down at a point in twips.
#[derive(Clone, Copy, Debug, PartialEq, Eq)]
pub enum What {
    Key {
        chr: u32,
        code: u32,
    },
    Mouse {
        x: u32,
        y: u32,
        count: u32,
        buttons: u32,
        modifier: u32,
    },
}

/// Points of a part, in twips, whose colour may have changed.
#[derive(Clone, Copy, Debug, PartialEq, Eq)]
pub struct Damage {
    pub part: u32,
    pub rect: Rect,
}

/// The kinds of document.
#[derive(Clone, Copy, Debug, PartialEq, Eq)]
pub enum KitName {
    Patch,
    Sheet,
}

/// Why a kit loaded nothing.
#[derive(Clone, Copy, Debug, PartialEq, Eq, Error)]
pub enum LoadFault {
    #[error("the file is none of this kind of document")]
    BadFile,
    #[error("out of memory")]
    Memory,
}

impl From<Memory> for LoadFault {
    ghost from_gives = { λ _ fault. fault ≡ NoMemory };

    fn from(_error: Memory) -> LoadFault {
        LoadFault::Memory
    }
}

impl From<AllocError> for LoadFault {
    ghost from_gives = { λ _ fault. fault ≡ NoMemory };

    fn from(_error: AllocError) -> LoadFault {
        LoadFault::Memory
    }
}

impl<T: Drop> From<AllocFailed<T>> for LoadFault {
    ghost from_gives = { λ _ fault. fault ≡ NoMemory };

    fn from(_error: AllocFailed<T>) -> LoadFault {
        LoadFault::Memory
    }
}
