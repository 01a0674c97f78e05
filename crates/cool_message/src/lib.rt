//! The messages of a client: what a text says, and why a text says nothing.
//!
//! `ClientMessage` is the value of a text, `read_message` reads it, and `command_of` gives the word
//! that an error frame names where a text is refused. A text is at most 65,536 bytes of UTF-8, its
//! words stand apart by blanks, the first word is the command. `keys_of` gives the keys that a message
//! asks for.
#![tactic(auto)]

mod asked;
mod command;
mod fault;
mod faults;
mod limits;
mod message;
mod reading;
mod table;
mod values;
mod write;

pub use asked::keys_of;
pub use command::command_of;
pub use fault::{MessageFault, Word};
pub use limits::{MESSAGE_LIMIT, URL_LIMIT};
pub use message::{ClientMessage, CombineWords, KeyKind, MouseKind};
pub use reading::read_message;
pub use table::{Command, Field, Kind};
pub use write::write_message;
