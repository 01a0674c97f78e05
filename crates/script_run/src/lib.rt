//! Scripts played to their end, on any world.
//!
//! A `Play` takes one line after the other. `run` reads a script from a source, hands its lines to the
//! player, and answers the one status that the bytes and the counts of faults allow. `one_status` is
//! the law that there is only one, `one_transcript` that there is only one transcript, and
//! `comes_to_its_end` that a script with an end in time comes to it.
#![tactic(auto)]

mod laws;
mod play;
mod program;
mod status;

pub use laws::{comes_to_its_end, one_status, one_transcript};
pub use play::{Play, refuse};
pub use program::run;
pub use status::Status;
