//! The cells that an edit changed.
use cool_base::ListOf;

/// The cells whose shown text an edit changed, which are all of one part.
#[derive(Drop)]
pub struct Changed {
    pub part: u32,
    /// The row and the column of each, by rows and then columns.
    pub positions: ListOf<(u32, u32)>,
}
