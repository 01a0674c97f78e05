//! Cells side by side.

/// Cells of one row without a gap.
#[derive(Clone, Copy, Debug, PartialEq, Eq)]
pub struct Stretch {
    pub row: u32,
    /// The first column.
    pub col: u32,
    /// How many cells they are, at least 1.
    pub count: u32,
}
