//! Why a text is no message.
ghost use Rattle.std.specs.Prelude.{◌≡◌};
ghost use Rattle.cool_message.specs.Names.{name_of};
ghost use Rattle.cool_message.specs.declared.fault.MessageFault.TheVariants.{Memory};

use std::fmt;
use thiserror::Error;

/// Why a text is no message: the first of these that applies, in this order. `Memory` may come in
/// place of any answer but the first three.
#[derive(Clone, Copy, Debug, PartialEq, Eq, Error)]
pub enum MessageFault {
    #[error("no word")]
    Empty,
    #[error("more than 65,536 bytes")]
    TooLong,
    #[error("not UTF-8")]
    NotUtf8,
    #[error("unknown command")]
    UnknownCommand,
    #[error("the word {0} is missing")]
    MissingWord(Word),
    #[error("the word {0} has a value out of form")]
    BadWord(Word),
    #[error("the word {0} stands twice")]
    RepeatedWord(Word),
    #[error("out of memory")]
    Memory,
}

impl From<cool_base::Memory> for MessageFault {
    ghost from_gives = { λ _ fault. fault ≡ Memory };

    fn from(_error: cool_base::Memory) -> MessageFault {
        MessageFault::Memory
    }
}

/// The name of a word of a message.
#[derive(Clone, Copy, Debug, PartialEq, Eq, Hash)]
pub enum Word {
    Url,
    Type,
    Char,
    Key,
    X,
    Y,
    Count,
    Buttons,
    Modifier,
    Part,
    Width,
    Height,
    TilePosX,
    TilePosY,
    TileWidth,
    TileHeight,
    TilePixelWidth,
    TilePixelHeight,
    TileTwipWidth,
    TileTwipHeight,
    NViewId,
    Wids,
    KeepEdit,
    SkipUnmodified,
    /// The second word of `uno`.
    Command,
}

impl Word {
    /// The name as it stands in a message.
    pub fn name(self) -> &'static str
        ensures { result.now ≡ name_of self }
    {
        match self {
            Word::Url => "url",
            Word::Type => "type",
            Word::Char => "char",
            Word::Key => "key",
            Word::X => "x",
            Word::Y => "y",
            Word::Count => "count",
            Word::Buttons => "buttons",
            Word::Modifier => "modifier",
            Word::Part => "part",
            Word::Width => "width",
            Word::Height => "height",
            Word::TilePosX => "tileposx",
            Word::TilePosY => "tileposy",
            Word::TileWidth => "tilewidth",
            Word::TileHeight => "tileheight",
            Word::TilePixelWidth => "tilepixelwidth",
            Word::TilePixelHeight => "tilepixelheight",
            Word::TileTwipWidth => "tiletwipwidth",
            Word::TileTwipHeight => "tiletwipheight",
            Word::NViewId => "nviewid",
            Word::Wids => "wids",
            Word::KeepEdit => "dontTerminateEdit",
            Word::SkipUnmodified => "dontSaveIfUnmodified",
            Word::Command => "command",
        }
    }
}

impl fmt::Display for Word {
    fn fmt<W: fmt::Write>(&self, f: &mut fmt::Formatter<W>) -> fmt::Result {
        f.write_str(self.name())
    }
}
