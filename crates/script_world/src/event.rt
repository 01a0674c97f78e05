//! What waits in the world until a poll takes it.
use cool_base::{FileId, ListOf};

/// An event of a link, in the one order of coming.
#[derive(Drop)]
pub enum Waiting {
    /// The link was opened.
    Opened(u32),
    /// The link loads the file, and may write or not.
    Loads(u32, FileId, bool),
    /// The link says the message.
    Says(u32, ListOf<u8>),
    /// The link is gone.
    Gone(u32),
}
