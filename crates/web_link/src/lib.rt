//! An open WebSocket of a browser over any stream: its messages are heard one at a time, and frames are
//! given to it, of which one is on its way and the others wait.
//!
//! - `WebLink` (`links`): the link.
//! - `Heard` (`heard`): what came.
#![tactic(auto)]

mod heard;
mod links;

pub use heard::{Heard, Pushed};
pub use links::{MESSAGE_LIMIT, OUTPUT_LIMIT, WebLink};
