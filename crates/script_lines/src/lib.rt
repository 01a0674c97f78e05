//! The text of scripts: lines read from a source, what they say, and the records that are written.
//!
//! `next_line` takes one line off a source, whatever pieces the source gives. `Position` is where a script
//! stands, and its `advance` says what a line does there and goes past it. `write_whole` writes bytes to a sink, and says how
//! far it came.
#![tactic(auto)]

mod line;
mod output;
mod position;
mod saying;

pub use line::{LineStep, next_line};
pub use output::{Stop, fault_text, record_of, write_whole};
pub use position::{LineRole, Position};
pub use saying::{ScriptLine, read_line};
