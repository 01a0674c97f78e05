//! The client of a WOPI host: what it asks, what it reads in the host's responses, and a store of
//! files that asks over wires.
//!
//! - `Ask`, `Told`, `request_of`, `understand` (`asks`).
//! - `talks`: one talk over one wire.
//! - `WopiStore` (`stores`): the operations, each a talk of its own.
#![tactic(auto)]

mod asks;
mod stores;
mod talks;

pub use asks::{Ask, Told, request_of, understand};
pub use stores::WopiStore;
pub use wopi_dial::{Dial, DialFault, MemoryDial};
