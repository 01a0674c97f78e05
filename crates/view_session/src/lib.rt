//! One view of a document: what it may do, which part it stands in, which tiles it sees and asks for,
//! what is on its screen, and which tiles it has not acknowledged. It knows no document: a caller
//! tells it the size of its part, the tiles that were sent to it and the rectangles that were damaged.
//!
//! `View` is the type that matters. Contracts see it as a `Viewing` (specs/Viewing); what every view
//! keeps is `IsViewing` (specs/Keeps), and `View::kept` tells it. Its keys stand in one list of slots in
//! key order (`slots`), so that a look-up is a binary search, and a tile that is sent takes no memory.
#![tactic(auto)]

mod asking;
mod slots;
mod views;

pub use document_machine::{MOST_ASKED, Rights};
pub use views::{View, ViewFault};
