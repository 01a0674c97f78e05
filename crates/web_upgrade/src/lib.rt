//! The request by which a browser opens a WebSocket, judged over the bytes that came so far, and the
//! answer, byte for byte. No socket is read or written here.
//!
//! - `judge` (`judging`): whether the bytes ask for an upgrade, begin to, or are refused.
//! - `requests_are_answered_in_one_way` (`laws`): the answer doesn't depend on the blocks.
//! - `Refusal` (`refusals`): why, and the response with its status.
//! - `Upgrading` (`upgrading`): the same of bytes that come in blocks, and what is still to be said.
//! - `Shake` (`shakes`): the same over any stream.
#![tactic(auto)]

mod judging;
mod laws;
mod refusals;
mod shakes;
mod upgrading;

pub use judging::{Judged, accept_bytes, judge};
pub use laws::requests_are_answered_in_one_way;
pub use refusals::Refusal;
pub use shakes::{Driven, Shake};
pub use upgrading::{Stage, Upgrading};
