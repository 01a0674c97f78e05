//! The frames that the daemon sends to a client.
//!
//! `Frame` is a frame as a value, `write_frame` gives its bytes, and `read_frame` gives the frame of
//! bytes. All frames but `Frame::Tile` are one line of text without a newline. A tile's frame is such a
//! line, a newline, and the picture.
//!
//! A line is read by finding the one frame that it could be, and writing this again: it is taken where
//! the bytes are the same. So no second grammar stands beside the writer's.
#![tactic(auto)]

mod fault;
mod frame;
mod kind;
mod likely;
mod read;
mod scan;
mod write;

pub use fault::FrameFault;
pub use frame::Frame;
pub use kind::ErrorKind;
pub use read::{frames_are_told_apart, read_frame};
pub use write::write_frame;
