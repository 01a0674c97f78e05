// What came over a link, and how errors end it.
ghost use Rattle.std.specs.Prelude.{◌≡◌, ◌/◌, ◌%◌, ◌∷◌, [], IfOk};
ghost use Rattle.web_link.specs.Endings.{EndsBy};
ghost use Rattle.web_link.specs.Hearing.{Hears};

use cool_base::{ListOf, Memory};
use std::alloc::Global;
use std::io::ErrorKind;
use tungstenite::{Error, Message};

/// What came over a link.
#[derive(Drop)]
pub enum Heard {
    /// A message of text or bytes.
    Said(ListOf<u8>),
    /// A ping, a pong or a close: more may have come.
    Control,
    /// Nothing more has come, or frames must leave first.
    Blocked,
    /// The link has ended.
    Ended,
}

/// What came of the frames that wait.
#[derive(Clone, Copy, Debug, PartialEq, Eq)]
pub enum Pushed {
    /// None waits.
    Idle,
    /// One left, and the next may.
    More,
    /// The link takes no more now.
    Blocked,
    /// The link has ended.
    Ended,
}

/// How an error ends a link.
#[derive(Clone, Copy, Debug, PartialEq, Eq)]
pub enum Ending {
    /// It doesn't: the stream would wait.
    Waits,
    /// There was no memory.
    NoMemory,
    /// The link is closed or lost.
    Lost,
    /// The browser broke a rule, and is told so by this code.
    Broken(u16),
}

/// How the error ends the link.
pub(crate) fn ending_of(error: &Error) -> Ending
    ensures { EndsBy error.now result }
{
    match error {
        Error::Io(cause) => {
            if cause.kind() == ErrorKind::WouldBlock {
                Ending::Waits
            } else {
                Ending::Lost
            }
        }
        Error::OutOfMemory => Ending::NoMemory,
        Error::Capacity(_) => Ending::Broken(1009),
        Error::Utf8 => Ending::Broken(1007),
        Error::Protocol(_) => Ending::Broken(1002),
        _ => Ending::Lost,
    }
}

/// What a message says.
pub(crate) fn heard_of(alloc: Global, message: &Message) -> Result<Heard, Memory>
    ensures { IfOk result (Hears message.now) }
{
    match message {
        Message::Text(text) => Ok(Heard::Said(ListOf::of(text.as_str().as_bytes().to_vec(alloc)?))),
        Message::Binary(bytes) => Ok(Heard::Said(ListOf::of(bytes.as_slice().to_vec(alloc)?))),
        Message::Ping(_) => Ok(Heard::Control),
        Message::Pong(_) => Ok(Heard::Control),
        Message::Close(_) => Ok(Heard::Control),
    }
}

/// A close frame with this code, of a server.
pub(crate) fn close_bytes(code: u16) -> [u8; 4]
    ensures { result ≡ 136 ∷ 2 ∷ (code / 256) ∷ (code % 256) ∷ [] }
{
    [0x88, 2, (code / 256) as u8, (code % 256) as u8]
}
