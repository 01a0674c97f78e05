//! Works on their way from the polls to the threads that do them.
//!
//! [`yard`] makes one queue of [`MOST_WORKS`] works. A poll has a [`SharedYard`], which puts works
//! at the back; a thread that does them has a [`WorkEnd`], which takes them at the front. Each end
//! knows all that it put or took, in order. [`worker_run`] does the works of its end, one after
//! another, and posts each one's answer.
#![tactic(auto)]

mod ends;
mod passes;
mod shared;
mod workers;
mod working;

pub use ends::WorkEnd;
pub use passes::{Item, MOST_WORKS};
pub use shared::{RtYard, SharedYard, yard};
pub use workers::{Gate, Post, Posted};
pub use working::{WorkerEnd, worker_run};
