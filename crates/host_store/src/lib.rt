//! A store over a host in memory: each operation of the client goes as bytes over one wire to the
//! host, and the host's response as bytes over another one back.
//!
//! - `LoopWire` (`loops`): a wire in memory that gives what was sent over it.
//! - `carry`: a request to the host, and a response back.
//! - `HostStore` (`stores`): the store, with its host and its clock.
#![tactic(auto)]

mod carry;
mod loops;
mod notes;
mod stores;

pub use loops::LoopWire;
pub use stores::HostStore;
