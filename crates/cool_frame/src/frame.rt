//! `Frame`.
use crate::kind::ErrorKind;
use bytes::Bytes;
use cool_base::{Rect, Size, TextOf, ViewId, Wid};
use kit_trait::KitName;
use tile_key::TileKey;

/// A frame of the daemon.
#[derive(Debug, Drop)]
pub enum Frame {
    /// The daemon greets.
    Server,
    /// A view has joined its document: the kit, the count of parts, the size of part 0 in twips.
    Status {
        kit: KitName,
        parts: u32,
        size: Size,
        view: ViewId,
        readonly: bool,
    },
    /// The rectangle of a part, in twips, looks otherwise than before.
    Invalidate {
        part: u32,
        rect: Rect,
    },
    /// A save is answered: `put` says that the store took the document now, else it had it already.
    /// A stored content reads as the document after `inputs` inputs.
    SaveDone {
        inputs: u64,
        put: bool,
    },
    /// A message was refused, or a save failed. The command is 1 to 32 letters a to z; a code comes
    /// with `LoadFailed` and `SaveFailed` alone, and always with these.
    Error {
        cmd: TextOf,
        kind: ErrorKind,
        code: Option<u16>,
    },
    /// A tile's picture after `ver` inputs, 4 bytes RGBA a pixel, row by row. The view counts the
    /// tiles that it was sent from 1 in `wid`.
    Tile {
        key: TileKey,
        ver: u64,
        wid: Wid,
        pixels: Bytes,
    },
}
