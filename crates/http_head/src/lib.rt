//! The heads of HTTP messages as far as a WOPI host and its client read them: of 1.0 or 1.1 as
//! `httparse` reads them, with at most 64 lines, and of a request whose target has bytes from 33 to
//! 126 alone.
//!
//! - `scan_head`, `scan_response_head`: whether bytes begin with a whole head, begin one, or are none.
//! - `HeadPhase` (`phases`): how far bytes have come in a head, so that one that comes in pieces is
//!   scanned once and not with each piece.
//! - `RequestParts`, `ResponseParts` (`parts`): what a whole head says.
//! - `requests_are_read_in_one_way`, `responses_are_read_in_one_way` (`laws`): one reading, and three
//!   kinds of bytes that exclude one another.
//! - `Framing` (`framing`): which body is behind it.
#![tactic(auto)]

mod corners;
mod fields;
mod framing;
mod laws;
mod parts;
mod phases;
mod requests;
mod responses;

pub use framing::{Framing, Said};
pub use laws::{requests_are_read_in_one_way, responses_are_read_in_one_way};
pub use parts::{RequestParts, ResponseParts, Scan};
pub use phases::{HeadPhase, Letter, Opening};
pub use requests::scan_head;
pub use responses::scan_response_head;

/// A head has at most so many bytes.
pub const HEAD_LIMIT: usize = 16_384;

/// A head has at most so many lines of names and values.
pub const MOST_LINES: usize = 64;
