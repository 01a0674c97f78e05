//! What is kept of a part beside its cells, from one edit to the next.
ghost use Rattle.std.specs.Prelude.{◌≡◌, ◌||◌, true, not, Some, OnOk, if◌then◌else◌};
ghost use Rattle.std.specs.BTreeMap.{is_at};
ghost use Rattle.std.specs.List.{list_any};
ghost use Rattle.std.specs.List.Sorted.{IsStrictlySortedBy};
ghost use Rattle.std.specs.Map.{keys_of};
ghost use Rattle.formula_base.specs.Blocks.{Block as BlockAt};
ghost use Rattle.formula_base.specs.Ranges.{Position, position_cmp};
ghost use Rattle.part_calc.specs.Contents.{content_of, blocks_in, is_formula};
ghost use Rattle.part_calc.specs.Parts.{content_at};
ghost use Rattle.part_calc.specs.Lanes.{is_block, has_span, IsGrown, Knows};
ghost use Rattle.part_calc.specs.Fates.{fate_in, is_fresh, put_over};

use crate::contents::{Cell, Content};
use crate::lanes::{Index, add, forget};
use crate::shown::{Fates, Kept};
use cool_base::Memory;
use formula_base::Block;
use std::alloc::Global;
use std::collections::BTreeMap;

/// Adds the blocks that a cell of a part names once it is another. Nothing is taken out.
pub fn learn(
    alloc: Global,
    index: &mut Index,
    cells: &BTreeMap<(u32, u32), Cell>,
    at: (u32, u32),
    cell: &Cell,
) -> Result<(), Memory>
    requires { Knows cells.now.entries index.old.entries }
    ensures grown { IsGrown index.old.entries index.new.entries }
    ensures added { OnOk result ((b : BlockAt) → list_any (is_block b) (blocks_in (content_of cell.now)) ≡ true → has_span index.new.entries b at ≡ true) }
{
    let present = blocks_at(cells, at);
    add(alloc, index, cell.named_blocks(), at, present)
}

/// Takes out the blocks that a cell of a part named before, and that it doesn't name now.
pub fn unlearn(
    index: &mut Index,
    before: Option<Cell>,
    cells: &BTreeMap<(u32, u32), Cell>,
    at: (u32, u32),
)
    ensures { (b : BlockAt) (c : Position) → has_span index.old.entries b c ≡ true → (not (is_at (position_cmp c) at) || list_any (is_block b) (blocks_in (content_at cells.now.entries at))) ≡ true → has_span index.new.entries b c ≡ true }
{
    if let Some(before) = before {
        forget(index, before.named_blocks(), at, blocks_at(cells, at));
    }
}

// The blocks that the cell at a position names.
fn blocks_at<'a>(cells: &'a BTreeMap<(u32, u32), Cell>, at: (u32, u32)) -> &'a [Block]
    ensures { result.now ≡ blocks_in (content_at cells.now.entries at) }
{
    match cells.get(&at) {
        Some(cell) => cell.named_blocks(),
        None => &[],
    }
}

/// Makes room for what becomes of a cell, where it is a formula. All that stands for others stays.
pub fn make_room(alloc: Global, kept: &mut Fates, at: (u32, u32), cell: &Cell) -> Result<(), Memory>
    ensures stay { (p : Position) → is_fresh kept.old.entries p ≡ true → fate_in kept.new.entries p ≡ fate_in kept.old.entries p }
    ensures there { OnOk result (is_formula (content_of cell.now) ≡ true → is_fresh kept.new.entries at ≡ true) }
{
    match cell.content() {
        Content::Plain(_) => Ok(()),
        Content::Formula(_) => make_place(alloc, kept, at),
    }
}

// Makes room for what becomes of a formula.
fn make_place(alloc: Global, kept: &mut Fates, at: (u32, u32)) -> Result<(), Memory>
    ensures stay { (p : Position) → is_fresh kept.old.entries p ≡ true → fate_in kept.new.entries p ≡ fate_in kept.old.entries p }
    ensures there { OnOk result (is_fresh kept.new.entries at ≡ true) }
{
    if kept.contains_key(&at) {
        return Ok(());
    }
    let fate = Kept::of(alloc, None)?;
    kept.insert(at, fate)?;
    Ok(())
}

/// Puts new fates over those that are kept. There is room for all that are formulas.
pub fn commit(kept: &mut Fates, fates: Vec<((u32, u32), Kept)>)
    requires { IsStrictlySortedBy position_cmp (keys_of fates.items) }
    ensures { (p : Position) → is_fresh kept.old.entries p ≡ true → fate_in kept.new.entries p ≡ put_over (fate_in fates.items p) (fate_in kept.old.entries p) }
{
    for (position, fate) in fates {
        put_fate(kept, position, fate);
    }
}

// Puts a fate over the one that is kept.
fn put_fate(kept: &mut Fates, position: (u32, u32), fate: Kept)
    ensures { (p : Position) → is_fresh kept.old.entries p ≡ true → fate_in kept.new.entries p ≡ (if is_at (position_cmp p) position then Some fate else fate_in kept.old.entries p) }
{
    if let Some(old) = kept.get_mut(&position) {
        *old = fate;
    }
}

/// Takes out what is kept for a cell that isn't a formula.
pub fn tidy(kept: &mut Fates, cells: &BTreeMap<(u32, u32), Cell>, at: (u32, u32))
    ensures { (p : Position) → is_formula (content_at cells.now.entries p) ≡ true → fate_in kept.new.entries p ≡ fate_in kept.old.entries p }
{
    if has_formula(cells, at) {
        return;
    }
    let _ = kept.remove(&at);
}

// Whether the cell at a position has a formula.
fn has_formula(cells: &BTreeMap<(u32, u32), Cell>, at: (u32, u32)) -> bool
    ensures { result ≡ is_formula (content_at cells.now.entries at) }
{
    match cells.get(&at) {
        Some(cell) => is_formula(cell),
        None => false,
    }
}

// Whether the cell has a formula.
fn is_formula(cell: &Cell) -> bool
    ensures { result ≡ is_formula (content_of cell.now) }
{
    matches!(cell.content(), Content::Formula(_))
}
