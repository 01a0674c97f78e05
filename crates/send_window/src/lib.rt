//! The tiles that were sent to one view and that it has not acknowledged: at most `MOST_SENT`, in
//! the order sent. It takes no memory.
//!
//! `Window` is the one type. Contracts see it as the list of its tiles, each with its number and its
//! key.
#![tactic(auto)]

mod windows;

pub use windows::{MOST_SENT, Window};
