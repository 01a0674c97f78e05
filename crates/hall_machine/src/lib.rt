//! The hall of documents on one thread: which files are open, which poll has each document, and the
//! mail that waits for it.
//!
//! [`HallState`] is the plain state with its book. Each call that changes something writes one
//! entry, and the state is always
//! what the machine of `specs/Machine` reaches by the book. The crate takes no lock and starts no
//! thread.
#![tactic(auto)]

mod bag;
mod checks;
mod edits;
mod moves;
mod reads;
mod state;
mod words;

pub use bag::MailBag;
pub use state::HallState;
pub use words::{
    CloseFault, Entered, Entry, Filed, Ground, HallAct, HallFault, Holder, Label, Labelled,
    OpenDocument, Owner, Refused,
};
