//! What no clause says of the queue of works: that works cross it from thread to thread, each once,
//! that it holds 256, and that the threads that do works, each with a store of its own, answer all
//! of them between them. The crate has these tests alone.
#![tactic(auto)]

#[cfg(test)]
mod crossings;
#[cfg(test)]
mod runs;
#[cfg(test)]
mod workers;
