//! The outside of the daemon: what it reads from and writes to, as traits that count their faults.
//!
//! An object of the outside may tell what it holds (`left`, `written`, `talk`, `calls`) or leave it
//! untold. A clause speaks of what is told by an equation that is also true where nothing is told.
//! The forms in memory, `MemorySource`, `MemorySink` and `MemoryWire`, tell all.
//!
//! - `streams`: sources and sinks of bytes.
//! - `wires`: a wire, for bytes both ways.
//! - `stores`: a store of files with locks, with its `errands` and `faults`.
#![tactic(auto)]

mod errands;
mod faults;
mod stores;
mod streams;
mod wires;

pub use errands::{Admission, Errand, Receipt};
pub use faults::{StoreFault, WireFault};
pub use stores::Store;
pub use streams::{MemorySink, MemorySource, ReadStep, Sink, Source, WriteStep};
pub use wires::{MemoryWire, Wire};
