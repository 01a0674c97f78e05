// Where a body stands between two of its bytes.
ghost use Rattle.std.specs.Prelude.{◌≡◌};

/// What the next byte of a body may be.
#[derive(Clone, Copy, Debug, PartialEq, Eq)]
pub enum Phase {
    /// Content of a body with a stated length.
    Counted,
    /// Content of a body that goes to the end of the wire.
    Open,
    /// Nothing: such a body has as many bytes as it may have.
    Full,
    /// The first digit of a chunk's size.
    Size,
    /// A further digit, or what comes behind the size.
    Digits,
    /// What comes behind the size and a blank.
    Pad,
    /// A byte of a chunk's extension, or the line's end.
    Extension,
    /// The line feed of a size line.
    SizeEnd,
    /// Content of a chunk.
    Data,
    /// The carriage return behind a chunk's content.
    DataEnd,
    /// The line feed behind it.
    DataFeed,
    /// The first byte of a trailer's name, or the empty line that ends the body.
    Trailer,
    /// A further byte of a trailer's name, or the colon.
    Name,
    /// A byte of a trailer's value, or the line's end.
    Value,
    /// The line feed of a trailer.
    ValueEnd,
    /// The line feed of the empty line.
    LastEnd,
    /// No byte: the body is whole.
    Done,
    /// No byte: the body would have too many bytes.
    TooLong,
    /// No byte: the chunks are not in the grammar.
    Bad,
}

/// The place between two bytes of a body. `left` is how many bytes of content are still to come, or
/// the size that a chunk's digits give so far; `room` is how many bytes the chunks to come may have
/// together; `line` is how many bytes the size line, or the trailers, may still have.
#[derive(Clone, Copy, Debug, PartialEq, Eq)]
pub struct BodyState {
    pub phase: Phase,
    pub left: u32,
    pub room: u32,
    pub line: u32,
}

/// How many bytes a body has at most.
pub const BODY_LIMIT: u32 = 67_108_864;

/// How many bytes the line of a chunk's size has at most, its end included, and all trailers together.
pub const LINE_LIMIT: u32 = 16_384;

/// How many bytes of a body in chunks are framing at most, that is all that are no content: the lines
/// of sizes with their extensions, the line ends behind content, and the trailers.
pub const FRAMING_LIMIT: usize = BODY_LIMIT as usize;
