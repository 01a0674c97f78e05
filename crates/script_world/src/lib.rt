//! The world of a script: one poll with its links and at most one document of a kit, and the events that wait.
//!
//! `World` takes what links do, and does it by the steps of the document machine: `turn` makes some turns of
//! the poll, `settle` all that is to do. Both write the records of the frames. After `settle` nothing waits,
//! the document is quiet, and all that its views see is right.
#![tactic(auto)]

mod acknowledging;
mod event;
mod joining;
mod laws;
mod lobby;
mod moves;
mod seats;
mod settling;
mod takes;
mod turning;
mod world;

pub use event::Waiting;
pub use laws::{settling_has_one_record, turns_have_one_record};
pub use seats::Seats;
pub use world::World;
