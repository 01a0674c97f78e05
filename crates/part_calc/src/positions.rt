//! The cells that an edit may concern.
ghost use Rattle.std.specs.Prelude.{◌≡◌, ◌||◌, IfOk, OnOk};
ghost use Rattle.std.specs.List.{filter};
ghost use Rattle.std.specs.List.Sorted.{IsStrictlySortedBy};
ghost use Rattle.std.specs.Map.{keys_of};
ghost use Rattle.std.specs.BTreeMap.{is_at};
ghost use Rattle.formula_base.specs.Ranges.{Position, position_cmp};
ghost use Rattle.part_calc.specs.Contents.{is_formula};
ghost use Rattle.part_calc.specs.Parts.{content_at};
ghost use Rattle.part_calc.specs.Finding.{is_listed};

use crate::contents::Cell;
use crate::edited::Edited;
use cool_base::Memory;
use std::alloc::Global;
use std::collections::{BTreeMap, BTreeSet};

/// The cells that have a text, and the cell of the edit, by rows and then columns, each once.
pub fn positions(
    alloc: Global,
    cells: &BTreeMap<(u32, u32), Cell>,
    at: (u32, u32),
) -> Result<Vec<(u32, u32)>, Memory>
    ensures ordered { IfOk result (λ positions. IsStrictlySortedBy position_cmp positions.items) }
    ensures listed { IfOk result (λ positions. (p : Position) → is_listed positions.items p ≡ (is_at (position_cmp p) at || is_listed (keys_of cells.now.entries) p)) }
{
    let texted = list(alloc, cells)?;
    let mut positions = set_of(alloc, texted.as_slice())?;
    add(&mut positions, at)?;
    into_list(alloc, positions)
}

// The set of some cells.
fn set_of(alloc: Global, listed: &[(u32, u32)]) -> Result<BTreeSet<(u32, u32)>, Memory>
    ensures { IfOk result (λ set. (p : Position) → is_listed set.keys p ≡ is_listed listed.now p) }
{
    let mut set = BTreeSet::new(alloc);
    for position in listed {
        add(&mut set, *position)?;
    }
    Ok(set)
}

// Adds a cell.
fn add(set: &mut BTreeSet<(u32, u32)>, position: (u32, u32)) -> Result<(), Memory>
    ensures { OnOk result ((p : Position) → is_listed set.new.keys p ≡ (is_at (position_cmp p) position || is_listed set.old.keys p)) }
{
    set.insert(position)?;
    Ok(())
}

// The cells of a set by rows and then columns.
fn into_list(alloc: Global, set: BTreeSet<(u32, u32)>) -> Result<Vec<(u32, u32)>, Memory>
    ensures list { IfOk result (λ list. list.items ≡ set.keys) }
    ensures ordered { IfOk result (λ list. IsStrictlySortedBy position_cmp list.items) }
{
    Ok(set.into_iter().collect(alloc)?)
}

// The cells that have a text, as a list.
fn list(alloc: Global, cells: &BTreeMap<(u32, u32), Cell>) -> Result<Vec<(u32, u32)>, Memory>
    ensures { IfOk result (λ list. list.items ≡ keys_of cells.now.entries) }
{
    Ok(cells.keys().copied().collect(alloc)?)
}

/// Those of the cells that have a formula.
pub fn formulas(
    alloc: Global,
    edited: &Edited<'_>,
    positions: &[(u32, u32)],
) -> Result<Vec<(u32, u32)>, Memory>
    ensures { IfOk result (λ formulas. formulas.items ≡ filter (λ p. is_formula (content_at edited.now p)) positions.now) }
{
    let mut formulas = Vec::new(alloc);
    for position in positions {
        if has_formula(edited, *position) {
            formulas.push(*position)?;
        }
    }
    Ok(formulas)
}

// Whether the cell has a formula.
fn has_formula(edited: &Edited<'_>, position: (u32, u32)) -> bool
    ensures { result ≡ is_formula (content_at edited.now position) }
{
    edited.formula(position).is_some()
}
