//! The edge of this machine: its sockets, files and clock. It is trusted and tells no contents.
//!
//! - `RealEdge` (`edges`): the edge. Its nets are those of `net_edge`.
//! - `TcpStore` (`stores`): its stores, those of `wopi_client` over `tcp_dial`.
//! - `MachineClock` (`clocks`): the machine's clock, and a gate that does nothing.
#![tactic(auto)]

mod clocks;
mod edges;
mod stores;

pub use clocks::{MachineClock, OpenGate};
pub use edges::RealEdge;
pub use stores::TcpStore;
