//! The cells of a block, of which those alone are gone through that are there.
//!
//! The cells that have a text come by rows and then columns, so those of a block are among the ones from
//! its first cell to its last. What was edited comes in its place among them.
ghost use Rattle.std.specs.Prelude.{◌≡◌, ◌++◌, ◌∷◌, ◌||◌, ◌&&◌, true, not, [], map, IfOk, OnOk};
ghost use Rattle.std.specs.BTreeMap.Range.{IsLeBy, IsLtBy};
ghost use Rattle.std.specs.List.{filter, list_all};
ghost use Rattle.std.specs.Option.{is_some};
ghost use Rattle.std.specs.Range.Bound.{IsForward};
ghost use Rattle.formula_base.specs.Blocks.{is_within};
ghost use Rattle.formula_base.specs.Gathering.{is_filled};
ghost use Rattle.formula_base.specs.Ranges.{position_cmp, cells_between};
ghost use Rattle.part_calc.specs.Finding.{seen_at, look_at};
ghost use Rattle.part_calc.specs.Fates.{found_over};
ghost use Rattle.part_calc.specs.Present.{first_of, last_of, whole, before, behind, stretched, is_entry_seen, entry_value};

use crate::contents::Cell;
use crate::edited::Edited;
use crate::lanes::is_cell;
use crate::looking::{Fresh, content_value, is_content_seen, is_seen};
use crate::readers::is_within;
use crate::shown::Fates;
use cool_base::Memory;
use formula_base::{Block, Value, push_filled};
use std::alloc::Global;
use std::collections::BTreeMap;
use std::ops::Bound;

/// The cells of a block from one on to another.
#[derive(Clone, Copy)]
pub struct Stretch {
    pub block: Block,
    pub start: Bound<(u32, u32)>,
    pub end: Bound<(u32, u32)>,
}

/// The values of the cells of a block, by rows and then columns, without those that are Empty.
#[tactic(auto, using(crate::proofs::RangeLaws::corners_forward, crate::proofs::RangeLaws::first_least, crate::proofs::RangeLaws::last_greatest))]
pub fn values_between(
    alloc: Global,
    edited: &Edited<'_>,
    kept: &Fates,
    fresh: &Fresh,
    block: Block,
) -> Result<Vec<Value>, Memory>
    ensures { IfOk result (λ values. values.items ≡ filter is_filled (map (look_at edited.now (found_over fresh.now.entries kept.now.entries)) (cells_between block.0 block.1))) }
{
    let (cells, at, cell) = edited.parts();
    let mut values = Vec::new(alloc);
    if is_within(at, block) {
        push_values(alloc, cells, kept, fresh, before(block, at), &mut values)?;
        push_value(alloc, kept, fresh, at, cell, &mut values)?;
        push_values(alloc, cells, kept, fresh, behind(block, at), &mut values)?;
        return Ok(values);
    }
    push_values(alloc, cells, kept, fresh, whole(block), &mut values)?;
    Ok(values)
}

// Adds the values of the cells of a stretch that aren't Empty.
fn push_values(
    alloc: Global,
    cells: &BTreeMap<(u32, u32), Cell>,
    kept: &Fates,
    fresh: &Fresh,
    stretch: Stretch,
    values: &mut Vec<Value>,
) -> Result<(), Memory>
    requires { IsForward (IsLeBy position_cmp) (IsLtBy position_cmp) stretch.start stretch.end }
    ensures { OnOk result (values.new.items ≡ values.old.items ++ filter is_filled (map (entry_value (found_over fresh.now.entries kept.now.entries)) (stretched stretch cells.now.entries))) }
{
    for (position, cell) in cells.range((stretch.start, stretch.end)) {
        if is_within(*position, stretch.block) {
            push_value(alloc, kept, fresh, *position, cell, values)?;
        }
    }
    Ok(())
}

// Adds the value of a cell, unless it is Empty.
fn push_value(
    alloc: Global,
    kept: &Fates,
    fresh: &Fresh,
    position: (u32, u32),
    cell: &Cell,
    values: &mut Vec<Value>,
) -> Result<(), Memory>
    ensures { OnOk result (values.new.items ≡ values.old.items ++ filter is_filled (entry_value (found_over fresh.now.entries kept.now.entries) (position, cell.now) ∷ [])) }
{
    let value = content_value(alloc, kept, fresh, position, cell.content())?;
    push_filled(values, value)
}

/// Whether the values of all cells of the blocks are seen.
pub fn are_blocks_seen(edited: &Edited<'_>, kept: &Fates, fresh: &Fresh, blocks: &[Block]) -> bool
    ensures { result ≡ list_all (λ b. list_all (λ r. is_some (seen_at edited.now (found_over fresh.now.entries kept.now.entries) r)) (cells_between b.0 b.1)) blocks.now }
{
    blocks
        .iter()
        .all(|block| is_block_seen(edited, kept, fresh, *block))
}

// Whether the values of all cells of the block are seen.
#[tactic(auto, using(crate::proofs::RangeLaws::one_seen))]
fn is_block_seen(edited: &Edited<'_>, kept: &Fates, fresh: &Fresh, block: Block) -> bool
    ensures { result ≡ list_all (λ r. is_some (seen_at edited.now (found_over fresh.now.entries kept.now.entries) r)) (cells_between block.0 block.1) }
{
    if is_cell(block.0, block.1) {
        is_seen(edited, kept, fresh, block.0)
    } else {
        is_range_seen(edited, kept, fresh, block)
    }
}

// The same, where the block has more than one cell.
#[tactic(auto, using(crate::proofs::RangeLaws::corners_forward))]
fn is_range_seen(edited: &Edited<'_>, kept: &Fates, fresh: &Fresh, block: Block) -> bool
    ensures { result ≡ list_all (λ r. is_some (seen_at edited.now (found_over fresh.now.entries kept.now.entries) r)) (cells_between block.0 block.1) }
{
    let (cells, at, cell) = edited.parts();
    if is_within(at, block) {
        are_seen_around(cells, kept, fresh, block, at, cell)
    } else {
        are_seen(cells, kept, fresh, whole(block))
    }
}

// Whether the values of the cells of a block are seen, of which one has another text.
#[tactic(auto, using(crate::proofs::RangeLaws::first_least, crate::proofs::RangeLaws::last_greatest))]
fn are_seen_around(
    cells: &BTreeMap<(u32, u32), Cell>,
    kept: &Fates,
    fresh: &Fresh,
    block: Block,
    at: (u32, u32),
    cell: &Cell,
) -> bool
    requires { is_within at block ≡ true }
    ensures { let seen = is_entry_seen (found_over fresh.now.entries kept.now.entries) in result ≡ (list_all seen (stretched (before block at) cells.now.entries) && (seen (at, cell.now) && list_all seen (stretched (behind block at) cells.now.entries))) }
{
    are_seen(cells, kept, fresh, before(block, at))
        && is_content_seen(kept, fresh, at, cell.content())
        && are_seen(cells, kept, fresh, behind(block, at))
}

// Whether the values of the cells of a stretch are seen.
fn are_seen(
    cells: &BTreeMap<(u32, u32), Cell>,
    kept: &Fates,
    fresh: &Fresh,
    stretch: Stretch,
) -> bool
    requires { IsForward (IsLeBy position_cmp) (IsLtBy position_cmp) stretch.start stretch.end }
    ensures { result ≡ list_all (is_entry_seen (found_over fresh.now.entries kept.now.entries)) (stretched stretch cells.now.entries) }
{
    for (position, cell) in cells.range((stretch.start, stretch.end)) {
        if !is_passed(kept, fresh, stretch.block, *position, cell) {
            return false;
        }
    }
    true
}

// Whether a cell lies outside a block, or its value is seen.
fn is_passed(kept: &Fates, fresh: &Fresh, block: Block, position: (u32, u32), cell: &Cell) -> bool
    ensures { result ≡ (not (is_within position block) || is_entry_seen (found_over fresh.now.entries kept.now.entries) (position, cell.now)) }
{
    !is_within(position, block) || is_content_seen(kept, fresh, position, cell.content())
}

// All cells of a block.
fn whole(block: Block) -> Stretch
    ensures { result ≡ whole block }
{
    Stretch {
        block,
        start: Bound::Included(first_of(block)),
        end: Bound::Included(last_of(block)),
    }
}

// Those before one of them.
fn before(block: Block, at: (u32, u32)) -> Stretch
    ensures { result ≡ before block at }
{
    Stretch {
        block,
        start: Bound::Included(first_of(block)),
        end: Bound::Excluded(at),
    }
}

// And those behind it.
fn behind(block: Block, at: (u32, u32)) -> Stretch
    ensures { result ≡ behind block at }
{
    Stretch {
        block,
        start: Bound::Excluded(at),
        end: Bound::Included(last_of(block)),
    }
}

// The first cell of a block, by rows and then columns.
fn first_of(block: Block) -> (u32, u32)
    ensures { result ≡ first_of block }
{
    let (one, other) = block;
    (one.0.min(other.0), one.1.min(other.1))
}

// The last cell of a block.
fn last_of(block: Block) -> (u32, u32)
    ensures { result ≡ last_of block }
{
    let (one, other) = block;
    (one.0.max(other.0), one.1.max(other.1))
}
