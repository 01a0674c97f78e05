//! The table of commands.
ghost use Rattle.std.specs.Prelude.{◌≡◌};
ghost use Rattle.std.specs.Option.{option_copied};
ghost use Rattle.cool_message.specs.Names.{command_text, command_named};
ghost use Rattle.cool_message.specs.Table.{fields_of, default_of};

use crate::fault::Word;

/// A command whose words have names; `uno` is the one other command.
#[derive(Clone, Copy, Debug, PartialEq, Eq)]
pub enum Command {
    CoolClient,
    Load,
    Key,
    Mouse,
    Tile,
    TileCombine,
    CancelTiles,
    VisibleArea,
    Zoom,
    SetPart,
    TileProcessed,
    Save,
}

/// What the value of a word is.
#[derive(Clone, Copy, Debug, PartialEq, Eq)]
pub enum Kind {
    /// 1 to 8,192 bytes.
    Address,
    /// `input` or `up`.
    KeyType,
    /// `buttondown`, `buttonup` or `move`.
    MouseType,
    /// A number of at most 2,147,483,647.
    Number,
    /// Such a number, which names a look: 1 means 1, every other number counts as 0.
    Look,
    /// 1 to 1,024 such numbers.
    Numbers,
    /// As many such numbers as `tileposx` has.
    AsManyNumbers,
    /// 1 to 1,024 numbers below 2^64.
    LongNumbers,
    /// `0` or `1`.
    Flag,
}

/// A word of a command and the kind of its value.
#[derive(Clone, Copy, Debug, PartialEq, Eq)]
pub struct Field {
    pub word: Word,
    pub kind: Kind,
}

const COMMANDS: [Command; 12] = [
    Command::CoolClient,
    Command::Load,
    Command::Key,
    Command::Mouse,
    Command::Tile,
    Command::TileCombine,
    Command::CancelTiles,
    Command::VisibleArea,
    Command::Zoom,
    Command::SetPart,
    Command::TileProcessed,
    Command::Save,
];

static LOAD: [Field; 1] = [Field {
    word: Word::Url,
    kind: Kind::Address,
}];

static KEY: [Field; 3] = [
    Field {
        word: Word::Type,
        kind: Kind::KeyType,
    },
    Field {
        word: Word::Char,
        kind: Kind::Number,
    },
    Field {
        word: Word::Key,
        kind: Kind::Number,
    },
];

static MOUSE: [Field; 6] = [
    Field {
        word: Word::Type,
        kind: Kind::MouseType,
    },
    Field {
        word: Word::X,
        kind: Kind::Number,
    },
    Field {
        word: Word::Y,
        kind: Kind::Number,
    },
    Field {
        word: Word::Count,
        kind: Kind::Number,
    },
    Field {
        word: Word::Buttons,
        kind: Kind::Number,
    },
    Field {
        word: Word::Modifier,
        kind: Kind::Number,
    },
];

static TILE: [Field; 8] = [
    Field {
        word: Word::Part,
        kind: Kind::Number,
    },
    Field {
        word: Word::Width,
        kind: Kind::Number,
    },
    Field {
        word: Word::Height,
        kind: Kind::Number,
    },
    Field {
        word: Word::TilePosX,
        kind: Kind::Number,
    },
    Field {
        word: Word::TilePosY,
        kind: Kind::Number,
    },
    Field {
        word: Word::TileWidth,
        kind: Kind::Number,
    },
    Field {
        word: Word::TileHeight,
        kind: Kind::Number,
    },
    Field {
        word: Word::NViewId,
        kind: Kind::Look,
    },
];

static TILE_COMBINE: [Field; 8] = [
    Field {
        word: Word::Part,
        kind: Kind::Number,
    },
    Field {
        word: Word::Width,
        kind: Kind::Number,
    },
    Field {
        word: Word::Height,
        kind: Kind::Number,
    },
    Field {
        word: Word::TilePosX,
        kind: Kind::Numbers,
    },
    Field {
        word: Word::TilePosY,
        kind: Kind::AsManyNumbers,
    },
    Field {
        word: Word::TileWidth,
        kind: Kind::Number,
    },
    Field {
        word: Word::TileHeight,
        kind: Kind::Number,
    },
    Field {
        word: Word::NViewId,
        kind: Kind::Look,
    },
];

static VISIBLE_AREA: [Field; 4] = [
    Field {
        word: Word::X,
        kind: Kind::Number,
    },
    Field {
        word: Word::Y,
        kind: Kind::Number,
    },
    Field {
        word: Word::Width,
        kind: Kind::Number,
    },
    Field {
        word: Word::Height,
        kind: Kind::Number,
    },
];

static ZOOM: [Field; 5] = [
    Field {
        word: Word::TilePixelWidth,
        kind: Kind::Number,
    },
    Field {
        word: Word::TilePixelHeight,
        kind: Kind::Number,
    },
    Field {
        word: Word::TileTwipWidth,
        kind: Kind::Number,
    },
    Field {
        word: Word::TileTwipHeight,
        kind: Kind::Number,
    },
    Field {
        word: Word::NViewId,
        kind: Kind::Look,
    },
];

static SET_PART: [Field; 1] = [Field {
    word: Word::Part,
    kind: Kind::Number,
}];

static TILE_PROCESSED: [Field; 1] = [Field {
    word: Word::Wids,
    kind: Kind::LongNumbers,
}];

static SAVE: [Field; 2] = [
    Field {
        word: Word::KeepEdit,
        kind: Kind::Flag,
    },
    Field {
        word: Word::SkipUnmodified,
        kind: Kind::Flag,
    },
];

impl Command {
    /// The first word of a message of this command.
    pub fn name(self) -> &'static str
        ensures { result.now ≡ command_text self }
    {
        match self {
            Command::CoolClient => "coolclient",
            Command::Load => "load",
            Command::Key => "key",
            Command::Mouse => "mouse",
            Command::Tile => "tile",
            Command::TileCombine => "tilecombine",
            Command::CancelTiles => "canceltiles",
            Command::VisibleArea => "clientvisiblearea",
            Command::Zoom => "clientzoom",
            Command::SetPart => "setclientpart",
            Command::TileProcessed => "tileprocessed",
            Command::Save => "save",
        }
    }

    /// The command that a message's first word names.
    pub fn read(first: &str) -> Option<Command>
        ensures { result ≡ command_named first.now }
    {
        COMMANDS
            .iter()
            .copied()
            .find(|command| command.name() == first)
    }

    /// The words of the command, in the table's order.
    pub fn fields(self) -> &'static [Field]
        ensures { result.now ≡ fields_of self }
    {
        match self {
            Command::CoolClient | Command::CancelTiles => &[],
            Command::Load => &LOAD,
            Command::Key => &KEY,
            Command::Mouse => &MOUSE,
            Command::Tile => &TILE,
            Command::TileCombine => &TILE_COMBINE,
            Command::VisibleArea => &VISIBLE_AREA,
            Command::Zoom => &ZOOM,
            Command::SetPart => &SET_PART,
            Command::TileProcessed => &TILE_PROCESSED,
            Command::Save => &SAVE,
        }
    }
}

/// What stands for an optional word that is left out; None for a required word.
pub fn default_of(word: Word) -> Option<&'static str>
    ensures { option_copied result ≡ default_of word }
{
    match word {
        Word::Count | Word::Buttons => Some("1"),
        Word::Modifier | Word::NViewId | Word::KeepEdit | Word::SkipUnmodified => Some("0"),
        _ => None,
    }
}
