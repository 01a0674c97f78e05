// What whole heads say.
use crate::framing::Framing;
use cool_base::TextOf;
use http_message::Method;

/// What the head of a request says: the target as it stands, the values of the first `X-WOPI-Lock`
/// and `X-WOPI-Override` (the empty text where a byte is outside 32 to 126), whether `X-WOPI-OldLock`
/// is there, and the body behind it.
#[derive(Drop)]
pub struct RequestParts {
    pub method: Method,
    pub target: TextOf,
    pub lock: Option<TextOf>,
    pub over: Option<TextOf>,
    pub old_lock: bool,
    pub framing: Framing,
}

/// What the head of a response says: its status, the value of the first `X-WOPI-Lock`, and the body
/// behind it.
#[derive(Drop)]
pub struct ResponseParts {
    pub status: u16,
    pub lock: Option<TextOf>,
    pub framing: Framing,
}

/// Which head the bytes begin with.
#[derive(Drop)]
pub enum Scan<P> {
    /// A whole one: what it says, and how many bytes it has.
    Whole(P, usize),
    /// They begin one, and more bytes can complete it.
    Begun,
    /// None, or one that is wrong.
    NoHead,
}
