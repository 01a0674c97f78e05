//! Where a view stands, and what an input means there.
use cool_base::TextOf;
use sheet_cells::CellRef;

/// Where a view stands. What is typed at a fresh cursor takes the place of the cell's raw text; else it
/// is added at the text's end.
#[derive(Clone, Copy, Debug, PartialEq, Eq)]
pub struct Cursor {
    pub at: CellRef,
    pub fresh: bool,
}

/// What an input means at a cursor.
#[derive(Debug, Drop)]
pub enum Meaning {
    /// Nothing changes.
    Stays,
    /// The cursor goes to the cell, and is fresh there.
    Goes(CellRef),
    /// The cell under the cursor gets the raw text, and the cursor stays, fresh or not.
    Writes { raw: TextOf, fresh: bool },
}
