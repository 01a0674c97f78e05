//! A net in memory, for scripts: links open, say something and leave as a script tells, and the
//! frames
//! that they are given are kept until they are drained.
//!
//! - `ScriptNet` (`net`), a `Net`.
//! - `ScriptLink` (`events`): a link with its events that wait, in a net or on its way to another.
//! - `Frame` (`gifts`): a frame that was given to a link.
#![tactic(auto)]

mod events;
mod gifts;
mod net;

pub use events::{Coming, Event, ScriptLink};
pub use gifts::{Frame, Gift};
pub use net::ScriptNet;
