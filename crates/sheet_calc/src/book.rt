//! `Book`: the parts of a sheet document.
ghost use Rattle.std.specs.Prelude.{◌≡◌, ◌≢◌, ◌<◌, ◌≤◌, ◌^◌, ◌↔◌, ◌++◌, [], length, replicate, IfOk, OnOk, OnErr};
ghost use Rattle.std.specs.List.Sorted.{IsStrictlySortedBy};
ghost use Rattle.sheet_cells.specs.Cells.{IsCell, IsRaw};
ghost use Rattle.sheet_cells.specs.declared.cells.CellRef.{CellRef};
ghost use Rattle.formula_base.specs.Ranges.{position_cmp};
ghost use Rattle.part_calc.specs.Readers.{readers_of};
ghost use Rattle.sheet_calc.specs.Books.{IsBook, position_of, part_at, text_of, shown_of, with_cell, changed_in, IsAmong};
ghost use Rattle.sheet_calc.specs.FileText.{all_lines, file_text};
ghost use Rattle.sheet_cells.specs.declared.limits.TheConstants.{MOST_PARTS};

use crate::changed::Changed;
use cool_base::Memory;
use part_calc::{Part, digits, line_len_at};
use sheet_cells::CellRef;
use std::alloc::Global;
use std::marker::Model;

/// The parts of a sheet document, of which there are at most 16. Contracts see it as the raw texts of
/// the cells that have one, part by part. What the cells show is kept, and is always what they show
/// when their values are found from scratch.
#[derive(Drop)]
pub struct Book {
    parts: Vec<Part>,
}

impl Model for Book {
    ghost use Rattle.std.specs.Prelude.{ℕ, List};
    ghost use Rattle.std.specs.Coded.{coded×, coded_list, coded_ℕ};
    ghost use Rattle.formula_base.specs.Ranges.{Position};
    ghost use Rattle.sheet_calc.specs.Books.{IsBook};

    ghost Value = { List (List (Position × List ℕ)) };

    ghost coded = { coded_list (coded_list (coded× (coded× coded_ℕ coded_ℕ) (coded_list coded_ℕ))) };

    ghost view = { λ book. book.parts.items };

    ghost invariant = { λ book. IsBook book.parts.items };
}

impl Book {
    /// This many parts, in which all cells are empty.
    pub fn new(alloc: Global, parts: u32) -> Result<Book, Memory>
        requires some { 1 ≤ parts }
        requires few { parts ≤ MOST_PARTS }
        ensures { IfOk result (λ book. book ≡ replicate parts []) }
    {
        let mut list = Vec::new(alloc);
        for _part in 0..parts {
            list.push(Part::new(alloc))?;
        }
        Ok(Book { parts: list })
    }

    // The book of these parts.
    pub(crate) fn of(parts: Vec<Part>) -> Book
        requires { IsBook parts.items }
        ensures { result ≡ parts.items }
    {
        Book { parts }
    }

    /// How many parts there are: 1 to 16. Its cells are in order, and their raw texts are such as a cell
    /// may have.
    pub fn parts(&self) -> u32
        ensures count { result ≡ length self.now }
        ensures few { result ≤ MOST_PARTS }
        ensures kept { IsBook self.now }
    {
        self.parts.len() as u32
    }

    /// Gives the cell the raw text, and answers the cells whose shown text differs from what it was.
    /// After `Memory` all is unchanged.
    pub fn set(&mut self, at: &CellRef, raw: &str) -> Result<Changed, Memory>
        requires cell { IsCell (length self.old) at.now }
        requires valid { IsRaw raw.now }
        ensures ok { OnOk result (self.new ≡ with_cell self.old at.now raw.now) }
        ensures there { OnOk result (text_of self.new at.now ≡ raw.now) }
        ensures elsewhere { OnOk result ((other : CellRef) → other ≢ at.now → text_of self.new other ≡ text_of self.old other) }
        ensures exactly { IfOk result (λ changed. (cell : CellRef) → IsAmong changed cell ↔ (shown_of self.old cell ≢ shown_of self.new cell)) }
        ensures changed { IfOk result (λ changed. changed ≡ changed_in self.old self.new at.now.part) }
        ensures in_order { IfOk result (λ changed. IsStrictlySortedBy position_cmp changed.positions) }
        ensures err { OnErr result (self.new ≡ self.old) }
    {
        let alloc = *self.parts.allocator();
        let part = &mut self.parts[at.part as usize];
        let positions = part.set(alloc, (at.row, at.col), raw)?;
        Ok(Changed {
            part: at.part,
            positions,
        })
    }

    /// What the cell shows: the value of its formula, and else its raw text.
    #[tactic(auto, unfolding(crate::specs::Books::shown_of))]
    pub fn shown(&self, at: &CellRef) -> &str
        requires { IsCell (length self.now) at.now }
        ensures { result.now ≡ shown_of self.now at.now }
    {
        self.parts[at.part as usize].shown((at.row, at.col))
    }

    /// The cell's raw text, empty where it has none.
    #[tactic(auto, unfolding(crate::specs::Books::text_of))]
    pub fn raw(&self, at: &CellRef) -> &str
        requires { IsCell (length self.now) at.now }
        ensures { result.now ≡ text_of self.now at.now }
    {
        self.parts[at.part as usize].raw((at.row, at.col))
    }

    /// The cells of its part whose formula names the cell, each a row and a column, once, by rows and
    /// then columns. It takes time for the texts of the part's formulas, and none for the cells of ranges.
    pub fn readers(&self, at: &CellRef) -> Result<Vec<(u32, u32)>, Memory>
        requires { IsCell (length self.now) at.now }
        ensures { IfOk result (λ readers. readers.items ≡ readers_of (part_at self.now at.now.part) (position_of at.now)) }
    {
        let alloc = *self.parts.allocator();
        self.parts[at.part as usize].readers(alloc, (at.row, at.col))
    }

    /// How many bytes the text of the book's file has: below 2^37. No cell is looked at: each part keeps
    /// the length of its lines.
    pub fn text_len(&self) -> u64
        ensures length { result ≡ length (file_text self.now) }
        ensures small { result < 2 ^ 37 }
    {
        let count = self.parts.len() as u64;
        digits(count) + 19 + lines_len(self.parts.as_slice())
    }

    /// How many bytes the text of the book's file would have, if the cell had this raw text. No other
    /// cell is looked at.
    pub fn text_len_with(&self, at: &CellRef, raw: &str) -> u64
        requires cell { IsCell (length self.now) at.now }
        requires valid { IsRaw raw.now }
        ensures { result ≡ length (file_text (with_cell self.now at.now raw.now)) }
    {
        let _count = self.parts();
        let position = (at.row, at.col);
        let old = line_len_at(at.part, position, self.raw(at));
        let new = line_len_at(at.part, position, raw);
        self.text_len() + new - old
    }

    /// Adds the lines of all cells in the text of the book's file.
    pub fn write_lines(&self, out: &mut Vec<u8>) -> Result<(), Memory>
        ensures { OnOk result (out.new.items ≡ out.old.items ++ all_lines 0 self.now) }
    {
        write_lines(self.parts.as_slice(), out)
    }
}

// How many bytes the lines of all parts have.
fn lines_len(parts: &[Part]) -> u64
    requires { length parts.now ≤ MOST_PARTS }
    ensures length { result ≡ length (all_lines 0 parts.now) }
    ensures small { result < 2 ^ 36 }
{
    let mut total: u64 = 0;
    for number in 0..parts.len() {
        total += parts[number].text_len(number as u32);
    }
    total
}

// Adds the lines of all parts.
fn write_lines(parts: &[Part], out: &mut Vec<u8>) -> Result<(), Memory>
    requires { length parts.now ≤ MOST_PARTS }
    ensures { OnOk result (out.new.items ≡ out.old.items ++ all_lines 0 parts.now) }
{
    for number in 0..parts.len() {
        parts[number].write_lines(number as u32, out)?;
    }
    Ok(())
}
