//! One value under one lock, whose changes form one list of entries.
//!
//! A [`TurnLock`] holds a value that keeps a list of what was done to it ([`Booked`]). A [`Seat`]
//! is a token of no bytes that a
//! thread makes its turns with. It knows a list: all that it has seen of what was done. Each turn
//! finds a value whose list begins
//! with all that the seat had seen, and adds at most one entry, which is then one of the seat's
//! own. So the turns of all threads
//! stand in one list, one after another.
#![tactic(auto)]

mod booked;
mod lock;
mod steps;
mod turns;
mod view;

pub use booked::Booked;
pub use lock::{Seat, TurnLock};
