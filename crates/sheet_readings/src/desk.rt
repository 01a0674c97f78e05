//! What stands from one case to the next.
use cool_base::Memory;
use sheet_calc::Book;
use std::alloc::Global;

/// The book that cases speak of.
#[derive(Drop)]
pub struct Desk {
    pub book: Book,
}

impl Desk {
    /// A book of one part, without texts.
    pub fn new(alloc: Global) -> Result<Desk, Memory> {
        let book = Book::new(alloc, 1)?;
        Ok(Desk { book })
    }
}
