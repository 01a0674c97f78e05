//! `Part`: the cells of one part, with what they show.
ghost use Rattle.std.specs.Prelude.{◌≡◌, ◌≢◌, ◌<◌, ◌^◌, ◌↔◌, ◌++◌, [], length, IfOk, OnOk, OnErr};
ghost use Rattle.std.specs.List.{Contains};
ghost use Rattle.std.specs.List.Sorted.{IsStrictlySortedBy};
ghost use Rattle.std.specs.Map.{keys_of};
ghost use Rattle.sheet_cells.specs.Cells.{IsRaw};
ghost use Rattle.formula_base.specs.Ranges.{Position, position_cmp};
ghost use Rattle.part_calc.specs.Kept.{IsPart};
ghost use Rattle.part_calc.specs.Lanes.{Knows};
ghost use Rattle.part_calc.specs.Fates.{IsKept};
ghost use Rattle.part_calc.specs.Parts.{text_at, with_text};
ghost use Rattle.part_calc.specs.Readers.{readers_of};
ghost use Rattle.part_calc.specs.Shown.{shown_at, changed_cells};
ghost use Rattle.part_calc.specs.Text.{part_lines};
ghost use Rattle.sheet_cells.specs.declared.limits.TheConstants.{COLUMNS, MOST_PARTS, ROWS};

use crate::contents::Cell;
use crate::keeping::{commit, learn, make_room, tidy, unlearn};
use crate::lanes::Index;
use crate::lengths::{edited_len, lines_len, raw_at};
use crate::lines::write_lines;
use crate::readers::readers;
use crate::recalculation::{old_text, recalculate};
use crate::shown::Fates;
use cool_base::{ListOf, Memory};
use std::alloc::Global;
use std::collections::BTreeMap;
use std::marker::Model;

/// The cells of one part: `ROWS` rows and `COLUMNS` columns, each cell a row and a column counted from 0.
/// Contracts see it as the raw texts of the cells that have one, by rows and then columns. The values of
/// the formulas and what they show are kept, and are always what they are when they are found from
/// scratch; and it is kept which formulas name a cell, so that an edit looks at no others.
#[derive(Drop)]
pub struct Part {
    cells: BTreeMap<(u32, u32), Cell>,
    fates: Fates,
    index: Index,
    // How many bytes the part's lines have, as those of part 0.
    kept: u64,
}

impl Model for Part {
    ghost use Rattle.std.specs.Prelude.{◌≡◌, List, ℕ, length};
    ghost use Rattle.std.specs.Coded.{coded×, coded_list, coded_ℕ};
    ghost use Rattle.formula_base.specs.Ranges.{Position};
    ghost use Rattle.part_calc.specs.Kept.{IsPart};
    ghost use Rattle.part_calc.specs.Lanes.{Knows};
    ghost use Rattle.part_calc.specs.Fates.{IsKept};
    ghost use Rattle.part_calc.specs.Text.{part_lines};

    ghost Value = { List (Position × List ℕ) };

    ghost coded = { coded_list (coded× (coded× coded_ℕ coded_ℕ) (coded_list coded_ℕ)) };

    ghost view = { λ part. part.cells.entries };

    ghost invariant = { λ part. IsPart part.cells.entries × IsKept part.cells.entries part.fates.entries × (part.kept ≡ length (part_lines 0 part.cells.entries)) × Knows part.cells.entries part.index.entries };
}

impl Part {
    /// A part whose cells are all empty.
    pub fn new(alloc: Global) -> Part
        ensures none { result ≡ [] }
        ensures kept { IsPart result }
    {
        Part {
            cells: BTreeMap::new(alloc),
            fates: BTreeMap::new(alloc),
            index: BTreeMap::new(alloc),
            kept: 0,
        }
    }

    // The part of these cells, where `fates` is what becomes of their formulas.
    pub(crate) fn of(cells: BTreeMap<(u32, u32), Cell>, fates: Fates, index: Index) -> Part
        requires cells { IsPart cells.entries }
        requires kept { IsKept cells.entries fates.entries }
        requires knows { Knows cells.entries index.entries }
        ensures { result ≡ cells.entries }
    {
        let kept = lines_len(&cells);
        Part {
            cells,
            fates,
            index,
            kept,
        }
    }

    /// Gives the cell the raw text, and answers the cells whose shown text differs from what it was. Only
    /// the cell and the formulas that read it, from cell to cell, are computed anew. After `Memory` all is
    /// unchanged.
    pub fn set(
        &mut self,
        alloc: Global,
        at: (u32, u32),
        raw: &str,
    ) -> Result<ListOf<(u32, u32)>, Memory>
        requires row { at.0 < ROWS }
        requires column { at.1 < COLUMNS }
        requires valid { IsRaw raw.now }
        ensures ok { OnOk result (self.new ≡ with_text self.old at raw.now) }
        ensures there { OnOk result (text_at self.new at ≡ raw.now) }
        ensures elsewhere { OnOk result ((other : Position) → other ≢ at → text_at self.new other ≡ text_at self.old other) }
        ensures changed { IfOk result (λ changed. changed ≡ changed_cells self.old (with_text self.old at raw.now)) }
        ensures exactly { IfOk result (λ changed. (p : Position) → Contains changed p ↔ (shown_at self.old p ≢ shown_at self.new p)) }
        ensures in_order { IfOk result (λ changed. IsStrictlySortedBy position_cmp changed) }
        ensures kept { OnOk result (IsPart self.new) }
        ensures err { OnErr result (self.new ≡ self.old) }
    {
        let cell = Cell::of(alloc, raw)?;
        let kept = edited_len(&self.cells, self.kept, at, raw);
        learn(alloc, &mut self.index, &self.cells, at, &cell)?;
        let found = recalculate(alloc, &self.cells, &self.fates, &self.index, at, &cell)?;
        make_room(alloc, &mut self.fates, at, &cell)?;
        let before = put(&mut self.cells, at, cell)?;
        unlearn(&mut self.index, before, &self.cells, at);
        commit(&mut self.fates, found.fates);
        tidy(&mut self.fates, &self.cells, at);
        self.kept = kept;
        Ok(found.changed)
    }

    /// What the cell shows: the value of its formula, and else its raw text.
    pub fn shown(&self, at: (u32, u32)) -> &str
        ensures { result.now ≡ shown_at self.now at }
    {
        old_text(&self.cells, &self.fates, at)
    }

    /// The cell's raw text, empty where it has none.
    pub fn raw(&self, at: (u32, u32)) -> &str
        ensures { result.now ≡ text_at self.now at }
    {
        raw_at(&self.cells, at)
    }

    /// The cells whose formula names the cell, each once, by rows and then columns. No range is listed cell
    /// by cell.
    pub fn readers(&self, alloc: Global, at: (u32, u32)) -> Result<Vec<(u32, u32)>, Memory>
        ensures { IfOk result (λ readers. readers.items ≡ readers_of self.now at) }
    {
        readers(alloc, &self.cells, at)
    }

    /// How many bytes the part's lines have in the text of a file, as the part of this number: below
    /// 2^31. The number is below `MOST_PARTS`. It takes no time for the cells: the length is kept.
    pub fn text_len(&self, number: u32) -> u64
        requires { number < MOST_PARTS }
        ensures length { result ≡ length (part_lines number self.now) }
        ensures small { result < 2 ^ 31 }
    {
        if number < 10 {
            self.kept
        } else {
            self.kept + self.cells.len() as u64
        }
    }

    /// Adds the part's lines in the text of a file, as those of the part of this number.
    pub fn write_lines(&self, number: u32, out: &mut Vec<u8>) -> Result<(), Memory>
        ensures { OnOk result (out.new.items ≡ out.old.items ++ part_lines number self.now) }
    {
        write_lines(&self.cells, number, out)
    }
}

// Gives the cell a text, or takes it out where the text is empty, and answers the cell that was there.
// After `Memory` all is unchanged.
#[tactic(auto, unfolding(crate::specs::Parts::with_text))]
pub(crate) fn put(
    cells: &mut BTreeMap<(u32, u32), Cell>,
    at: (u32, u32),
    cell: Cell,
) -> Result<Option<Cell>, Memory>
    ensures ok { OnOk result (cells.new.entries ≡ with_text cells.old.entries at cell) }
    ensures ordered { OnOk result (IsStrictlySortedBy position_cmp (keys_of cells.new.entries)) }
    ensures err { OnErr result (cells.new.entries ≡ cells.old.entries) }
{
    if cell.raw().is_empty() {
        return Ok(cells.remove(&at));
    }
    Ok(cells.insert(at, cell)?)
}
