//! What no clause says of the lock, the hall's state and the shared hall: threads that share one
//! history, reads that are fresh, and each refusal once. The crate has these tests alone.
#![tactic(auto)]

#[cfg(test)]
mod full;
#[cfg(test)]
mod halls;
#[cfg(test)]
mod locks;
#[cfg(test)]
mod states;
