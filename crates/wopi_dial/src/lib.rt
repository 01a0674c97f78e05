//! Dialling a host: a wire for each talk, which is hung up behind it.
//!
//! - `Dial`, `DialFault` (`dials`): the trait.
//! - `MemoryDial` (`memory`): wires in memory over stated answers.
#![tactic(auto)]

mod dials;
mod memory;

pub use dials::{Dial, DialFault};
pub use memory::MemoryDial;
