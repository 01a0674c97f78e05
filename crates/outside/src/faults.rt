// The faults of wires and stores.
ghost use Rattle.std.specs.Prelude.{◌≡◌};
ghost use Rattle.outside.specs.Stores.{code_of};

use cool_base::TextOf;
use thiserror::Error;

/// Why no message was read from a wire, or none written to it.
#[derive(Clone, Copy, Debug, PartialEq, Eq, Error)]
pub enum WireFault {
    #[error("the bytes begin no head")]
    BadHead,
    #[error("the head is longer than 16,384 bytes")]
    HeadTooLong,
    #[error("the body is longer than 67,108,864 bytes")]
    BodyTooLong,
    #[error("the body's chunks are not in the grammar")]
    BadChunk,
    #[error("the wire ended inside a message")]
    CutOff,
    #[error("a read failed")]
    ReadFault,
    #[error("a write failed")]
    WriteFault,
}

/// Why a store did not do what it was asked.
#[derive(Debug, Drop, Error)]
pub enum StoreFault {
    /// Another lock is set: its id, empty where none was told.
    #[error("another lock is set")]
    Conflict(TextOf),
    #[error("the token may not do this")]
    Denied,
    #[error("there is no such file")]
    Missing,
    /// The host answered with a status that has no meaning here.
    #[error("the host answered with status {0}")]
    BadAnswer(u16),
    #[error("{0}")]
    Wire(WireFault),
    #[error("the host's answer is not the JSON that was asked for")]
    BadJson,
    #[error("out of memory")]
    Memory,
}

impl StoreFault {
    ghost use Rattle.outside.specs.Stores.{code_of};

    /// The code that a client is told: the host's status, or 1000 to 1002.
    pub fn code(&self) -> u16
        ensures { result ≡ code_of self.now }
    {
        match self {
            StoreFault::Conflict(_) => 409,
            StoreFault::Denied => 401,
            StoreFault::Missing => 404,
            StoreFault::BadAnswer(status) => *status,
            StoreFault::Wire(_) => 1000,
            StoreFault::BadJson => 1001,
            StoreFault::Memory => 1002,
        }
    }
}
