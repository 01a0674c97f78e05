//! `PartDraft`: a part that is put together cell by cell, before anything is computed.
ghost use Rattle.std.specs.Prelude.{◌≡◌, ◌<◌, [], IfOk, OnOk, OnErr};
ghost use Rattle.sheet_cells.specs.Cells.{IsRaw};
ghost use Rattle.part_calc.specs.Kept.{IsPart};
ghost use Rattle.part_calc.specs.Parts.{with_text};
ghost use Rattle.sheet_cells.specs.declared.limits.TheConstants.{COLUMNS, ROWS};

use crate::contents::Cell;
use crate::lanes::index_of;
use crate::part::{Part, put};
use crate::recalculation::computed_now;
use cool_base::Memory;
use std::alloc::Global;
use std::collections::BTreeMap;
use std::marker::Model;

/// The cells of a part that is put together, of which no value is computed yet. Contracts see it as a
/// part is seen.
#[derive(Drop)]
pub struct PartDraft {
    cells: BTreeMap<(u32, u32), Cell>,
}

impl Model for PartDraft {
    ghost use Rattle.std.specs.Prelude.{List, ℕ};
    ghost use Rattle.std.specs.Coded.{coded×, coded_list, coded_ℕ};
    ghost use Rattle.formula_base.specs.Ranges.{Position};
    ghost use Rattle.part_calc.specs.Kept.{IsPart};

    ghost Value = { List (Position × List ℕ) };

    ghost coded = { coded_list (coded× (coded× coded_ℕ coded_ℕ) (coded_list coded_ℕ)) };

    ghost view = { λ draft. draft.cells.entries };

    ghost invariant = { λ draft. IsPart draft.cells.entries };
}

impl PartDraft {
    /// All cells are empty.
    pub fn new(alloc: Global) -> PartDraft
        ensures { result ≡ [] }
    {
        PartDraft {
            cells: BTreeMap::new(alloc),
        }
    }

    /// Gives the cell the raw text, in time logarithmic in the part's cells. After `Memory` all is
    /// unchanged.
    pub fn add(&mut self, alloc: Global, at: (u32, u32), raw: &str) -> Result<(), Memory>
        requires row { at.0 < ROWS }
        requires column { at.1 < COLUMNS }
        requires valid { IsRaw raw.now }
        ensures ok { OnOk result (self.new ≡ with_text self.old at raw.now) }
        ensures err { OnErr result (self.new ≡ self.old) }
    {
        let cell = Cell::of(alloc, raw)?;
        put(&mut self.cells, at, cell)?;
        Ok(())
    }

    /// The part of these cells. All values are computed, once.
    pub fn finish(self, alloc: Global) -> Result<Part, Memory>
        ensures same { IfOk result (λ part. part ≡ self) }
        ensures kept { IfOk result (λ part. IsPart part) }
    {
        let PartDraft { cells } = self;
        let index = index_of(alloc, &cells)?;
        let fates = computed_now(alloc, &cells, &index)?;
        Ok(Part::of(cells, fates, index))
    }
}
