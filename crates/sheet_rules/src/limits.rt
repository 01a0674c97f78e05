//! How large a part of a sheet document is.
use cell_damage::{CELL_HEIGHT, CELL_WIDTH};
use sheet_cells::{COLUMNS, ROWS};

/// The width of a part in twips, 245,760.
pub const PART_WIDTH: u32 = COLUMNS * CELL_WIDTH;

/// The height of a part in twips, 983,040.
pub const PART_HEIGHT: u32 = ROWS * CELL_HEIGHT;
