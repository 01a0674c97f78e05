// What a store is asked for and what it answers.
use bytes::Bytes;
use cool_base::{FileId, TextOf, Ticket, Token};

/// A document's content that is to be stored.
#[derive(Drop)]
pub struct Errand {
    pub ticket: Ticket,
    pub file: FileId,
    pub token: Token,
    pub content: Bytes,
    /// How many inputs the content has.
    pub number: u64,
}

/// That the host took this content of this file.
#[derive(Drop)]
pub struct Receipt {
    pub file: FileId,
    pub content: Bytes,
}

/// What a token may do with a file.
#[derive(Debug, Drop)]
pub struct Admission {
    pub can_write: bool,
    /// The name of the token's user.
    pub user: TextOf,
    /// The file's length in bytes.
    pub size: u64,
}
