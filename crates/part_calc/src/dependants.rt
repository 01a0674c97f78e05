//! The cells that an edit can change: a walk from cells to the cells that read them.
ghost use Rattle.std.specs.Prelude.{◌≡◌, ◌++◌, ◌∷◌, [], Bool, List, Some, None, IfOk, OnOk, if◌then◌else◌};
ghost use Rattle.std.specs.BTreeMap.{is_at};
ghost use Rattle.std.specs.List.{list_any};
ghost use Rattle.formula_base.specs.Blocks.{is_within};
ghost use Rattle.formula_base.specs.Ranges.{Position, position_cmp};
ghost use Rattle.part_calc.specs.Fates.{fate_in, is_fresh};
ghost use Rattle.part_calc.specs.Finding.{is_listed};
ghost use Rattle.part_calc.specs.Lanes.{is_read, is_reader, spans_in};
ghost use Rattle.part_calc.specs.Walking.{entering, leaving, enters, leaves, IsPushed, IsWalk, IsReached};

use crate::lanes::{Index, Span};
use crate::readers::is_within;
use cool_base::Memory;
use formula_base::Value;
use sheet_cells::{COLUMNS, ROWS};
use std::alloc::Global;
use std::collections::BTreeMap;

// A cell on the way: to be entered, or to be left once the cells that read it were.
#[derive(Clone, Copy)]
pub struct Visit {
    pub position: (u32, u32),
    pub is_left: bool,
}

/// Some cells and all that read one of them, from cell to cell.
#[derive(Drop)]
pub struct Reached {
    /// The cells, for none of which a value is found yet.
    pub fresh: BTreeMap<(u32, u32), Option<Value>>,
    /// The cells, each before those that read it where no circle prevents it.
    pub ordered: Vec<(u32, u32)>,
}

/// The cells that are affected by an edit of one.
pub fn follow(alloc: Global, index: &Index, at: (u32, u32)) -> Result<Reached, Memory>
    ensures { IfOk result (λ r. IsReached index.now.entries (λ c. is_at (position_cmp c) at) r.fresh.entries r.ordered.items) }
{
    let mut visits = Vec::new(alloc);
    visits.push(Visit {
        position: at,
        is_left: false,
    })?;
    search(alloc, index, visits)
}

/// Some cells, and those that are affected by an edit of one of them.
pub fn follow_all(alloc: Global, index: &Index, starts: &[(u32, u32)]) -> Result<Reached, Memory>
    ensures { IfOk result (λ r. IsReached index.now.entries (is_listed starts.now) r.fresh.entries r.ordered.items) }
{
    let visits = entered(alloc, starts)?;
    search(alloc, index, visits)
}

// Visits that enter these cells.
fn entered(alloc: Global, starts: &[(u32, u32)]) -> Result<Vec<Visit>, Memory>
    ensures { IfOk result (λ visits. IsPushed [] visits.items (is_listed starts.now)) }
{
    let mut visits = Vec::new(alloc);
    for position in starts {
        visits.push(Visit {
            position: *position,
            is_left: false,
        })?;
    }
    Ok(visits)
}

// Goes on from these visits to the end. The cells come in the order in which a search into depth leaves
// them, turned round.
fn search(alloc: Global, index: &Index, visits: Vec<Visit>) -> Result<Reached, Memory>
    ensures { IfOk result (λ r. (starts : Position → Bool) → IsPushed [] visits.items starts → IsReached index.now.entries starts r.fresh.entries r.ordered.items) }
{
    let mut visits = visits;
    let mut fresh = BTreeMap::new(alloc);
    let mut ordered = Vec::new(alloc);
    for _step in 0..u64::MAX {
        match visits.pop() {
            Some(visit) => take(index, &mut fresh, &mut visits, &mut ordered, visit)?,
            None => {
                return Ok(Reached {
                    fresh,
                    ordered: turned(ordered),
                });
            }
        }
    }
    Err(Memory)
}

// The cells in the opposite order.
fn turned(positions: Vec<(u32, u32)>) -> Vec<(u32, u32)>
    ensures { (p : Position) → is_listed result.items p ≡ is_listed positions.items p }
{
    let mut positions = positions;
    positions.reverse();
    positions
}

// Takes a visit.
fn take(
    index: &Index,
    fresh: &mut BTreeMap<(u32, u32), Option<Value>>,
    visits: &mut Vec<Visit>,
    ordered: &mut Vec<(u32, u32)>,
    visit: Visit,
) -> Result<(), Memory>
    ensures { OnOk result ((starts : Position → Bool) → IsWalk index.now.entries starts fresh.old.entries (visits.old.items ++ visit ∷ []) ordered.old.items → IsWalk index.now.entries starts fresh.new.entries visits.new.items ordered.new.items) }
{
    if visit.is_left {
        ordered.push(visit.position)?;
        return Ok(());
    }
    enter(index, fresh, visits, visit.position)?;
    Ok(())
}

// Enters a cell, unless it was entered before.
fn enter(
    index: &Index,
    fresh: &mut BTreeMap<(u32, u32), Option<Value>>,
    visits: &mut Vec<Visit>,
    position: (u32, u32),
) -> Result<(), Memory>
    ensures { OnOk result ((starts : Position → Bool) (ordered : List Position) → IsWalk index.now.entries starts fresh.old.entries (visits.old.items ++ entering position ∷ []) ordered → IsWalk index.now.entries starts fresh.new.entries visits.new.items ordered) }
{
    let was_entered = mark(fresh, position)?;
    if was_entered {
        return Ok(());
    }
    visits.push(Visit {
        position,
        is_left: true,
    })?;
    push_readers(index, visits, position)?;
    Ok(())
}

// Notes that a cell is entered, and answers whether it was before.
fn mark(
    fresh: &mut BTreeMap<(u32, u32), Option<Value>>,
    position: (u32, u32),
) -> Result<bool, Memory>
    ensures marked { OnOk result ((q : Position) → fate_in fresh.new.entries q ≡ (if is_at (position_cmp q) position then Some None else fate_in fresh.old.entries q)) }
    ensures before { IfOk result (λ was. was ≡ is_fresh fresh.old.entries position) }
{
    let before = fresh.insert(position, None)?;
    Ok(before.is_some())
}

// Lets the cells that read a cell be entered later.
fn push_readers(index: &Index, visits: &mut Vec<Visit>, position: (u32, u32)) -> Result<(), Memory>
    ensures { OnOk result (IsPushed visits.old.items visits.new.items (is_reader index.now.entries position)) }
{
    push_lane(index, visits, position, position)?;
    push_lane(index, visits, (ROWS, position.1), position)?;
    push_lane(index, visits, (position.0, COLUMNS), position)?;
    push_lane(index, visits, (ROWS + 1, position.0 / 16), position)?;
    push_lane(index, visits, (ROWS + 2, position.0 / 256), position)?;
    push_lane(index, visits, (ROWS, COLUMNS), position)?;
    Ok(())
}

// The same of one lane.
#[tactic(auto, unfolding(crate::specs::Lanes::spans_in))]
fn push_lane(
    index: &Index,
    visits: &mut Vec<Visit>,
    lane: (u32, u32),
    position: (u32, u32),
) -> Result<(), Memory>
    ensures { OnOk result (IsPushed visits.old.items visits.new.items (is_read (spans_in index.now.entries lane) position)) }
{
    match index.get(&lane) {
        Some(lane) => push_spans(visits, lane.spans(), position),
        None => Ok(()),
    }
}

// The same of some spans.
fn push_spans(visits: &mut Vec<Visit>, spans: &[Span], position: (u32, u32)) -> Result<(), Memory>
    ensures { OnOk result (IsPushed visits.old.items visits.new.items (is_read spans.now position)) }
{
    for span in spans {
        if is_within(position, span.block) {
            visits.push(Visit {
                position: span.reader,
                is_left: false,
            })?;
        }
    }
    Ok(())
}
