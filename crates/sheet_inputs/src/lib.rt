//! The inputs of a sheet document, over its book and the cursors of its views: what an input means at a
//! cursor, what it leaves, and what it damages. Each call is one of the plain functions of `sheet_rules`.
//!
//! - `cursor_of` (`cursors`): where a view stands in a part.
//! - `meaning_of` (`meanings`): what a key or a mouse input means there.
//! - `carry_out` (`steps`): what it leaves, with the damage.
#![tactic(auto)]

mod cursors;
mod meanings;
mod steps;

pub use cursors::cursor_of;
pub use meanings::meaning_of;
pub use steps::carry_out;
