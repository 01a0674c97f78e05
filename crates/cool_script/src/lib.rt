//! Scripts on the daemon's world, and the command that replays them.
//!
//! `Script` is the world of one document with the position in the script's grammar, as a player of
//! scripts. `replay` plays the script of a source on a patch document or a sheet, and writes the transcript.
//! `read_line` tells what a line of a script says.
#![tactic(auto)]

mod command;
mod script;

pub use command::replay;
pub use script::Script;
pub use script_lines::{ScriptLine, read_line};
