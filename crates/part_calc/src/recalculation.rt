//! What an edit of a part leaves.
ghost use Rattle.std.specs.Prelude.{◌≡◌, [], Some, not, true, unwrap_or, IfOk};
ghost use Rattle.std.specs.List.{filter, AllByRecursion};
ghost use Rattle.std.specs.List.Sorted.{IsStrictlySortedBy};
ghost use Rattle.std.specs.Map.{keys_of};
ghost use Rattle.std.specs.Option.{option_copied};
ghost use Rattle.std.specs.Str.{bytes_eq};
ghost use Rattle.formula_base.specs.Ranges.{Position, position_cmp};
ghost use Rattle.part_calc.specs.Contents.{is_formula};
ghost use Rattle.part_calc.specs.Parts.{content_at, with_text};
ghost use Rattle.part_calc.specs.Shown.{shown_at, differs, changed_cells};
ghost use Rattle.part_calc.specs.Kept.{IsPart};
ghost use Rattle.part_calc.specs.Lanes.{Knows};
ghost use Rattle.part_calc.specs.Fates.{IsKept, IsComputed, IsRight, fate_at, fate_in, text_shown};

use crate::contents::Cell;
use crate::dependants::{follow, follow_all};
use crate::edited::Edited;
use crate::finding::find_values;
use crate::lanes::Index;
use crate::positions::{formulas, positions};
use crate::shown::{Fates, Kept, cell_text, seal};
use cool_base::{ListOf, Memory};
use sheet_cells::ROWS;
use std::alloc::Global;
use std::collections::BTreeMap;

// A position behind the last row: a part stays as it is where a cell there is emptied.
const OUTSIDE: (u32, u32) = (ROWS, 0);

/// What becomes of the formulas that an edit of a part affects, and where the part shows another text.
#[derive(Drop)]
pub struct Recalculated {
    /// By rows and then columns.
    pub fates: Vec<((u32, u32), Kept)>,
    /// By rows and then columns.
    pub changed: ListOf<(u32, u32)>,
}

/// What becomes of the formulas of the part of these cells once the cell at a position is this one, as
/// far as that is another than what is kept. No other cell is looked at than those that the edit
/// affects, and those that these read.
pub fn recalculate(
    alloc: Global,
    cells: &BTreeMap<(u32, u32), Cell>,
    kept: &Fates,
    index: &Index,
    at: (u32, u32),
    cell: &Cell,
) -> Result<Recalculated, Memory>
    requires kept { IsKept cells.now.entries kept.now.entries }
    requires knows { Knows cells.now.entries index.now.entries }
    ensures computed { IfOk result (λ r. IsComputed cells.now.entries at cell.now kept.now.entries r.fates.items) }
    ensures ordered { IfOk result (λ r. IsStrictlySortedBy position_cmp (keys_of r.fates.items)) }
    ensures changed { IfOk result (λ r. r.changed ≡ changed_cells cells.now.entries (with_text cells.now.entries at cell.now)) }
{
    let _count = cells.len();
    let reached = follow(alloc, index, at)?;
    let edited = Edited::of(cells, at, cell);
    let found = find_values(alloc, &edited, kept, reached.fresh, reached.ordered)?;
    let fates = seal(alloc, found)?;
    let changed = changes(alloc, cells, kept, &edited, fates.as_slice())?;
    Ok(Recalculated { fates, changed })
}

/// What becomes of all formulas of the part of these cells.
pub fn computed_now(
    alloc: Global,
    cells: &BTreeMap<(u32, u32), Cell>,
    index: &Index,
) -> Result<Fates, Memory>
    requires { IsPart cells.now.entries }
    ensures { IfOk result (λ kept. IsKept cells.now.entries kept.entries) }
{
    let none = Cell::of(alloc, "")?;
    computed_with(alloc, cells, index, &none)
}

// What becomes of all formulas of the part of these cells, where a cell outside it is emptied.
fn computed_with(
    alloc: Global,
    cells: &BTreeMap<(u32, u32), Cell>,
    index: &Index,
    none: &Cell,
) -> Result<Fates, Memory>
    requires part { IsPart cells.now.entries }
    requires empty { none.now ≡ [] }
    ensures { IfOk result (λ kept. IsKept cells.now.entries kept.entries) }
{
    let _count = cells.len();
    let concerned = positions(alloc, cells, OUTSIDE)?;
    let edited = Edited::of(cells, OUTSIDE, none);
    let computed = formulas(alloc, &edited, concerned.as_slice())?;
    let reached = follow_all(alloc, index, computed.as_slice())?;
    let before = BTreeMap::new(alloc);
    let found = find_values(alloc, &edited, &before, reached.fresh, reached.ordered)?;
    let fates = seal(alloc, found)?;
    gather(alloc, fates)
}

// Fates by their cells.
fn gather(alloc: Global, fates: Vec<((u32, u32), Kept)>) -> Result<Fates, Memory>
    requires { IsStrictlySortedBy position_cmp (keys_of fates.items) }
    ensures { IfOk result (λ kept. (p : Position) → fate_in kept.entries p ≡ fate_in fates.items p) }
{
    let mut kept = BTreeMap::new(alloc);
    for (position, fate) in fates {
        kept.insert(position, fate)?;
    }
    Ok(kept)
}

// Those of the cells whose shown text differs, given what becomes of them.
fn changes(
    alloc: Global,
    cells: &BTreeMap<(u32, u32), Cell>,
    kept: &Fates,
    edited: &Edited<'_>,
    fates: &[((u32, u32), Kept)],
) -> Result<ListOf<(u32, u32)>, Memory>
    requires before { IsKept cells.now.entries kept.now.entries }
    requires after { AllByRecursion (IsRight edited.now) fates.now }
    ensures { IfOk result (λ changed. changed ≡ filter (differs cells.now.entries edited.now) (keys_of fates.now)) }
{
    let mut changed = ListOf::new(alloc);
    for item in fates {
        if is_changed(cells, kept, edited, item) {
            changed.push(item.0)?;
        }
    }
    Ok(changed)
}

/// What a cell shows of a part of which it is kept what becomes of its formulas.
pub fn old_text<'a>(
    cells: &'a BTreeMap<(u32, u32), Cell>,
    kept: &'a Fates,
    position: (u32, u32),
) -> &'a str
    requires { IsKept cells.now.entries kept.now.entries }
    ensures { result.now ≡ shown_at cells.now.entries position }
{
    cell_text(cells.get(&position), kept.get(&position))
}

// Whether a cell shows another text once the part was edited, given what becomes of it.
fn is_changed(
    cells: &BTreeMap<(u32, u32), Cell>,
    kept: &Fates,
    edited: &Edited<'_>,
    item: &((u32, u32), Kept),
) -> bool
    requires before { IsKept cells.now.entries kept.now.entries }
    requires after { IsRight edited.now item.now }
    ensures { result ≡ differs cells.now.entries edited.now item.now.0 }
{
    is_other_text(old_text(cells, kept, item.0), edited.cell(item.0), &item.1)
}

// Whether a cell shows another text than this one, given what becomes of its formula.
fn is_other_text(text: &str, cell: Option<&Cell>, fate: &Kept) -> bool
    ensures { result ≡ not (bytes_eq text.now (text_shown (unwrap_or (option_copied cell.entry) []) (Some fate.now))) }
{
    text != cell_text(cell, Some(fate))
}
