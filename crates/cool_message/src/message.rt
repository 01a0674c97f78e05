use cool_base::{ListOf, Rect, TextOf};
use tile_key::TileWords;

/// A message of a client, as the protocol's page lists them. In what is read a look, `nviewid`, is 0
/// or 1.
#[derive(Debug, Drop)]
pub enum ClientMessage {
    /// The client greets.
    CoolClient,
    /// Opens the document at an address, as it stands in the message.
    Load {
        url: TextOf,
    },
    /// A key with its character and its code.
    Key {
        kind: KeyKind,
        chr: u32,
        code: u32,
    },
    /// A button at a point of the document, in twips.
    Mouse {
        kind: MouseKind,
        x: u32,
        y: u32,
        count: u32,
        buttons: u32,
        modifier: u32,
    },
    /// Asks for one tile.
    Tile(TileWords),
    /// Asks for several tiles of one size.
    TileCombine(CombineWords),
    /// Asks for none of the tiles any more.
    CancelTiles,
    /// The part of the document that the client sees, in twips.
    VisibleArea(Rect),
    /// The pixels, the twips and the look of one tile.
    Zoom {
        pixel_w: u32,
        pixel_h: u32,
        twip_w: u32,
        twip_h: u32,
        nviewid: u32,
    },
    /// The part of the document that the client works on.
    SetPart {
        part: u32,
    },
    /// Tiles that the client has drawn, by their numbers.
    TileProcessed {
        wids: ListOf<u64>,
    },
    /// Saves the document.
    Save {
        keep_edit: bool,
        skip_unmodified: bool,
    },
    /// Saves the document, as an office's command.
    UnoSave,
}

/// Whether a key went down or up.
#[derive(Clone, Copy, Debug, PartialEq, Eq, Hash)]
pub enum KeyKind {
    Input,
    Up,
}

/// What a mouse did.
#[derive(Clone, Copy, Debug, PartialEq, Eq, Hash)]
pub enum MouseKind {
    ButtonDown,
    ButtonUp,
    Move,
}

/// The words of `tilecombine`: the tiles stand at the pairs of the two lists, which have one length.
#[derive(Debug, Drop)]
pub struct CombineWords {
    pub part: u32,
    pub width: u32,
    pub height: u32,
    pub tileposx: ListOf<u32>,
    pub tileposy: ListOf<u32>,
    pub tilewidth: u32,
    pub tileheight: u32,
    pub nviewid: u32,
}
