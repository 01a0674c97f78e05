//! The words of the commands that serve.
//!
//! - `host_words`: what the words of `host` say, exactly, or why they say nothing.
//! - `serve_words`: the same of `serve`.
//! - `refusal_text`: the text for words that were refused.
#![tactic(auto)]

mod commands;
mod refusals;
mod serves;

pub use commands::{HostWords, WordsFault, host_words};
pub use refusals::refusal_text;
pub use serves::{HostAddress, KitName, ServeWords, serve_words};
