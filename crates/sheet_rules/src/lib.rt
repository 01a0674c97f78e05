//! What an input does to a sheet document, as plain functions on what the document holds: where the
//! views' cursors stand, which text a key writes, which rectangles are damaged, and the colour of each
//! point. The definitions stand in `specs`, with the laws that a kit of sheet documents owes; the code
//! here is the types that they speak of.
//!
//! - `Cursor` (`cursors`): where a view stands.
//! - `Meaning` (`cursors`): what an input means at a cursor.
//! - `ShownText` (`cuts`): what a scene holds of a cell.
//! - `limits`: how large a part is.
#![tactic(auto)]

mod cursors;
mod cuts;
mod limits;

pub use cursors::{Cursor, Meaning};
pub use cuts::ShownText;
pub use limits::{PART_HEIGHT, PART_WIDTH};
