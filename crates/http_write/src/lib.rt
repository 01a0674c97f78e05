//! Writing requests and responses of HTTP over any wire. What is written is read again where the
//! request is a get without a body or a post, host and target are words of bytes from 33 to 126, lock
//! and override have bytes from 32 to 126 without a blank at an end, a status is from 100 to 999, and
//! head and body are within the reader's limits.
//!
//! - `write_request`, `write_response` (`writes`).
//! - `requests_are_read_again`, `responses_are_read_again` (`laws`).
#![tactic(auto)]

mod heads;
mod laws;
mod sends;
mod writes;

pub use laws::{requests_are_read_again, responses_are_read_again};
pub use writes::{write_request, write_response};
