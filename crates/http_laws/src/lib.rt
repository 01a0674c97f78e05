//! What holds of the messages and bodies of HTTP, whatever reads them. Each law stands on a function
//! that does nothing.
//!
//! - `messages`: bytes say one thing, and what they say stays whatever follows.
//! - `bodies`: bodies by length and to the end of the wire; what they say stays.
//! - `chunks`: a body in chunks is read exactly where one is written.
#![tactic(auto)]

mod bodies;
mod chunks;
mod messages;

pub use bodies::{bodies_have_their_length, bodies_stay};
pub use chunks::{chunks_are_read_again, read_chunks_are_spelled};
pub use messages::{requests_say_one_thing, responses_say_one_thing};
