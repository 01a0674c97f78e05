//! The font that painters letter with: for each character a glyph of 6 by 8 dots. The characters 32 to
//! 126 have glyphs of their own, every other one has a box. The last column is empty, so that letters
//! stand apart.
//!
//! - `dot` (`dots`): whether a character has a dot in a column and a row.
//! - `the_last_column_is_empty`, `other_characters_are_boxes` (`dots`): laws of all glyphs.
#![tactic(auto)]

mod dots;
mod glyphs;

pub use dots::{dot, other_characters_are_boxes, the_last_column_is_empty};
