//! The body of an HTTP message, read from a wire: by its length, in chunks, to the end of the wire,
//! or none. It has at most `BODY_LIMIT` bytes, and in chunks at most as many beside them.
//!
//! A body is read by a machine that takes one byte after another (`BodyState::step`); what all bytes
//! together say is what the machine says behind them, so pieces may be cut anywhere.
//!
//! - `BodyState`, `Phase` (`states`, `steps`): where a body stands between two bytes.
//! - `read_body` (`reads`): a body from a wire, its content by blocks (`feeds`).
//! - `HttpFault` (`faults`): why no message was read or written.
#![tactic(auto)]

mod faults;
mod feeds;
mod reads;
mod states;
mod steps;

pub use faults::HttpFault;
pub use reads::{PIECE_LIMIT, read_body};
pub use states::{BODY_LIMIT, BodyState, FRAMING_LIMIT, LINE_LIMIT, Phase};
