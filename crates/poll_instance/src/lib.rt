//! The polls of the daemon: what a poll over many documents is where each document is a broker's.
//! It has definitions and laws of them; it runs nothing.
//!
//! - `ways` (specs/Instance): the kind of document that a poll of the daemon holds. Its steps are
//!   the moves of a broker, its frames are the bytes that are given to links.
//! - `laws`: that a poll moves documents as brokers do, that an idle turn changes nothing, and
//!   whose token the lock of a put has.
#![tactic(auto)]

mod laws;

pub use laws::{idle_turns_rest, locks_have_their_errands_token, polls_move_documents};
