//! How large a cell is, and how many rectangles damage has.

/// The width of a cell in twips.
pub const CELL_WIDTH: u32 = 960;

/// The height of a cell, and of a line of text, in twips.
pub const CELL_HEIGHT: u32 = 240;

/// The most rectangles that an input damages.
pub const MOST_RECTANGLES: usize = 256;
