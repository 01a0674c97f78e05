//! The raw texts of a sheet document by cell, and how the texts of cells are read where no formula is
//! needed: names of cells, numbers and plain texts.
//!
//! - `Cells` (`cells`): the raw texts of 1 to 16 parts, by `CellRef`.
//! - `read_ref`, `position_of` (`references`): the cell that a name as `B12` names.
//! - `read_plain` (`plains`): what a raw text is that holds no formula.
//! - `limits`: how many parts, rows and columns there are, and how long a raw text may be.
#![tactic(auto)]

mod cells;
mod limits;
mod plains;
mod references;

pub use cells::{CellRef, Cells};
pub use limits::{COLUMNS, MOST_PARTS, RAW_LIMIT, ROWS};
pub use plains::{Plain, is_digit, read_plain};
pub use references::{is_name_letter, leading_letters, position_of, read_ref};
