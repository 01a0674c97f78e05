//! An edge in memory for the host of files, which tells its wires, its keeper and its clock, and what
//! `host_serve` does over it.
//!
//! - `MemoryEdge` (`edges`): it shows that an edge that tells all of this can be.
//! - `NoNet`, `NoStore`, `OpenGate`, `StillClock` (`kinds`): what it gives beside.
#![tactic(auto)]

mod edges;
mod kinds;
#[cfg(test)]
mod rounds;

pub use edges::MemoryEdge;
pub use kinds::{NoNet, NoStore, OpenGate, StillClock};
