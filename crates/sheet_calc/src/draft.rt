//! `BookDraft`: a book that is put together cell by cell, before anything is computed.
ghost use Rattle.std.specs.Prelude.{◌≡◌, ◌≤◌, [], length, replicate, IfOk, OnOk, OnErr};
ghost use Rattle.sheet_cells.specs.Cells.{IsCell, IsRaw};
ghost use Rattle.sheet_calc.specs.Books.{with_cell};
ghost use Rattle.sheet_cells.specs.declared.limits.TheConstants.{MOST_PARTS};

use crate::book::Book;
use cool_base::Memory;
use part_calc::PartDraft;
use sheet_cells::CellRef;
use std::alloc::Global;
use std::marker::Model;

/// The parts of a sheet document that is put together, of which no value is computed yet. Contracts see
/// it as a book is seen.
#[derive(Drop)]
pub struct BookDraft {
    parts: Vec<PartDraft>,
}

impl Model for BookDraft {
    ghost use Rattle.sheet_cells.specs.declared.limits.TheConstants.{MOST_PARTS};
    ghost use Rattle.std.specs.Prelude.{ℕ, ◌≤◌, List, length};
    ghost use Rattle.std.specs.Coded.{coded×, coded_list, coded_ℕ};
    ghost use Rattle.formula_base.specs.Ranges.{Position};

    ghost Value = { List (List (Position × List ℕ)) };

    ghost coded = { coded_list (coded_list (coded× (coded× coded_ℕ coded_ℕ) (coded_list coded_ℕ))) };

    ghost view = { λ draft. draft.parts.items };

    ghost invariant = { λ draft. (1 ≤ length draft.parts.items) × (length draft.parts.items ≤ MOST_PARTS) };
}

impl BookDraft {
    /// This many parts, in which all cells are empty.
    pub fn new(alloc: Global, parts: u32) -> Result<BookDraft, Memory>
        requires some { 1 ≤ parts }
        requires few { parts ≤ MOST_PARTS }
        ensures { IfOk result (λ draft. draft ≡ replicate parts []) }
    {
        let mut list = Vec::new(alloc);
        for _part in 0..parts {
            list.push(PartDraft::new(alloc))?;
        }
        Ok(BookDraft { parts: list })
    }

    /// How many parts there are: 1 to 16.
    pub fn parts(&self) -> u32
        ensures { result ≡ length self.now }
    {
        self.parts.len() as u32
    }

    /// Gives the cell the raw text, in time logarithmic in the cells of its part. After `Memory` all is
    /// unchanged.
    pub fn add(&mut self, at: &CellRef, raw: &str) -> Result<(), Memory>
        requires cell { IsCell (length self.old) at.now }
        requires valid { IsRaw raw.now }
        ensures ok { OnOk result (self.new ≡ with_cell self.old at.now raw.now) }
        ensures err { OnErr result (self.new ≡ self.old) }
    {
        let alloc = *self.parts.allocator();
        let part = &mut self.parts[at.part as usize];
        part.add(alloc, (at.row, at.col), raw)
    }

    /// The book of these cells. All values are computed, once.
    pub fn finish(self) -> Result<Book, Memory>
        ensures { IfOk result (λ book. book ≡ self) }
    {
        let BookDraft { parts } = self;
        let alloc = *parts.allocator();
        let mut list = Vec::new(alloc);
        for part in parts {
            list.push(part.finish(alloc)?)?;
        }
        Ok(Book::of(list))
    }
}
