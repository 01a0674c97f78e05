//! More of the outside of the daemon as traits: nets of links to browsers, clocks, and the gate before
//! each work.
//!
//! - `Net` (`nets`): links that open, say something and leave, with its counts of failed takes and gives.
//! - `Clock`, `MemoryClock`, `Gate` (`clocks`).
#![tactic(auto)]

mod clocks;
mod nets;

pub use clocks::{Clock, Gate, MemoryClock};
pub use nets::{Given, Net, Taken};
