//! Requests and responses of HTTP, read from any wire and written to one.
//!
//! A message is read until its bytes say what it is, or a fault. What they say is defined over all
//! bytes that the call received (`specs/Messages.antt`), so it doesn't matter how the wire cuts them.
//! Bytes after the message are received or not, and never change the answer: a wire carries one
//! message each way. Bytes that begin no head are told with the receive that brought them: a head
//! that comes in pieces is followed by its phase (`HeadPhase` of `http_head`), and scanned where that
//! ends.
//!
//! - `read_request`, `read_response` (`messages`); `write_request`, `write_response` (of `http_write`).
//! - `HttpFault`: why no message was read or written.
#![tactic(auto)]

mod heads;
mod messages;
mod reads;

pub use http_write::{write_request, write_response};
pub use messages::{read_request, read_response};
pub use wire_body::HttpFault;
