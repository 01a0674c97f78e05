//! The programs that serve.
//!
//! - `host_serve` (`hosting`): the WOPI host, over any edge.
//! - `refusal_text`: the text for words that were refused.
#![tactic(auto)]

mod hosting;
mod statuses;
mod wires;

pub use hosting::host_serve;
pub use server_words::refusal_text;
