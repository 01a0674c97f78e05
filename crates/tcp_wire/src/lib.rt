//! A wire over a TCP stream. The wires are trusted: they tell no bytes.
//!
//! - `TcpWire` (`wires`): the wire over any stream.
//! - `TimedWire` (`timed`): the same with limits of time, so that no peer can hold its caller.
#![tactic(auto)]

mod timed;
mod wires;

pub use timed::TimedWire;
pub use wires::TcpWire;
