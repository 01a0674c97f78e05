//! The words of messages, frames and script lines.
//!
//! - `words`: what stands between blanks. A blank is the byte 32 alone.
//! - `name_and_value`, `is_named`, `first_value`, `count_named`: words `name=value`, cut at the first
//!   equals sign. `split_once` cuts a line of bytes at any byte.
//! - `is_command`, `command_text`: commands, words of 1 to 32 letters a to z.
//! - `is_list_31`, `list_31`, `is_list_64`, `list_64`: lists of numbers separated by single commas.
//! - `push_number`, `push_list_31`, `push_list_64`: numbers and lists written at the end of bytes.
//! - `percent_decoded`: percent escapes read.
#![tactic(auto)]

mod commands;
mod escapes;
mod lists;
mod named;
mod split;
mod write;

pub use commands::{COMMAND_LIMIT, command_text, is_command, is_letter};
pub use escapes::percent_decoded;
pub use lists::{MOST_NUMBERS, count_parts, is_list_31, is_list_64, list_31, list_64, number_31};
pub use named::{count_named, first_value, is_named, name_and_value, split_once};
pub use split::words;
pub use write::{push_list_31, push_list_64, push_number};
