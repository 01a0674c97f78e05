//! The values of the formulas of a part.
//!
//! A sweep over waiting cells takes each once, and finds its value where the values of all cells that it
//! reads are known: found since the edit, or kept from before it. The sweeps end with one that finds
//! nothing, and the cells that still wait are circular. Which order the cells come in decides how many
//! sweeps there are, and nothing else; they come behind those that they read, so that one finds all
//! values and one more ends.
ghost use Rattle.std.specs.Prelude.{◌≡◌, [], true, Some, None, IfOk, OnOk, if◌then◌else◌};
ghost use Rattle.std.specs.List.{list_all};
ghost use Rattle.std.specs.Option.{is_some};
ghost use Rattle.formula_base.specs.Ranges.{Position};
ghost use Rattle.formula_base.specs.Blocks.{blocks_of};
ghost use Rattle.formula_base.specs.Evaluation.{eval_of, reads_of};
ghost use Rattle.part_calc.specs.Finding.{seen_at, look_at, attempted, left_after, IsSound, Covers, IsSwept, AreFound};
ghost use Rattle.part_calc.specs.Fates.{is_fresh, found_over, fresh_after};

use crate::edited::Edited;
use crate::looking::{Fresh, Seen, found, seen_value};
use crate::ranges::are_blocks_seen;
use crate::shown::Fates;
use cool_base::Memory;
use formula_base::{Block, Expr, Value, eval};
use std::alloc::Global;

/// The values of the waiting cells: of each that isn't circular. What is kept of other cells is right.
pub fn find_values(
    alloc: Global,
    edited: &Edited<'_>,
    kept: &Fates,
    fresh: Fresh,
    ordered: Vec<(u32, u32)>,
) -> Result<Fresh, Memory>
    requires sound { IsSound edited.now (found_over fresh.entries kept.now.entries) }
    requires covers { Covers edited.now (found_over fresh.entries kept.now.entries) ordered.items }
    ensures found { IfOk result (λ found. AreFound edited.now (found_over found.entries kept.now.entries)) }
    ensures stay { IfOk result (λ found. (p : Position) → is_fresh fresh.entries p ≡ true → is_fresh found.entries p ≡ true) }
{
    let mut fresh = fresh;
    let mut waiting = ordered;
    let mut count = waiting.len();
    loop {
        let left = sweep(alloc, edited, kept, &mut fresh, waiting.as_slice())?;
        if left.len() == count {
            return Ok(fresh);
        }
        count = left.len();
        waiting = left;
    }
}

// Takes each waiting cell once, and answers those that still wait.
fn sweep(
    alloc: Global,
    edited: &Edited<'_>,
    kept: &Fates,
    fresh: &mut Fresh,
    waiting: &[(u32, u32)],
) -> Result<Vec<(u32, u32)>, Memory>
    requires sound { IsSound edited.now (found_over fresh.old.entries kept.now.entries) }
    requires covers { Covers edited.now (found_over fresh.old.entries kept.now.entries) waiting.now }
    ensures swept { IfOk result (λ left. IsSwept edited.now (found_over fresh.new.entries kept.now.entries) waiting.now left.items) }
    ensures stay { OnOk result ((p : Position) → is_fresh fresh.old.entries p ≡ true → is_fresh fresh.new.entries p ≡ true) }
{
    let mut left = Vec::new(alloc);
    for position in waiting {
        try_cell(alloc, edited, kept, fresh, &mut left, *position)?;
    }
    Ok(left)
}

// Finds the value of a cell, or lets it wait.
fn try_cell(
    alloc: Global,
    edited: &Edited<'_>,
    kept: &Fates,
    fresh: &mut Fresh,
    left: &mut Vec<(u32, u32)>,
    position: (u32, u32),
) -> Result<(), Memory>
    ensures fresh { OnOk result (fresh.new.entries ≡ fresh_after (found_over fresh.old.entries kept.now.entries position) (attempted edited.now (found_over fresh.old.entries kept.now.entries) position) fresh.old.entries position) }
    ensures left { OnOk result (left.new.items ≡ left_after (found_over fresh.old.entries kept.now.entries position) (attempted edited.now (found_over fresh.old.entries kept.now.entries) position) left.old.items position) }
{
    if found(kept, fresh, position).is_some() {
        return Ok(());
    }
    match attempt(alloc, edited, kept, fresh, position)? {
        Some(value) => {
            fresh.insert(position, Some(value))?;
        }
        None => left.push(position)?,
    }
    Ok(())
}

// The value of a cell, where those of all cells that it reads are seen.
#[tactic(auto, using(crate::proofs::FindLaws::attempt_plain, crate::proofs::FindLaws::attempt_formula, crate::proofs::FindLaws::attempt_early))]
fn attempt(
    alloc: Global,
    edited: &Edited<'_>,
    kept: &Fates,
    fresh: &Fresh,
    position: (u32, u32),
) -> Result<Option<Value>, Memory>
    ensures { IfOk result (λ value. value ≡ attempted edited.now (found_over fresh.now.entries kept.now.entries) position) }
{
    match edited.naming_formula(position) {
        Some((expression, blocks)) => {
            attempt_formula(alloc, edited, kept, fresh, expression, blocks)
        }
        None => Ok(Some(seen_value(alloc, edited, kept, fresh, position)?)),
    }
}

// The value of an expression that names these blocks, where those of all cells that it reads are seen.
fn attempt_formula(
    alloc: Global,
    edited: &Edited<'_>,
    kept: &Fates,
    fresh: &Fresh,
    expression: &Expr,
    blocks: &[Block],
) -> Result<Option<Value>, Memory>
    requires { blocks.now ≡ blocks_of expression.now }
    ensures { IfOk result (λ value. value ≡ (if list_all (λ r. is_some (seen_at edited.now (found_over fresh.now.entries kept.now.entries) r)) (reads_of expression.now) then Some (eval_of (look_at edited.now (found_over fresh.now.entries kept.now.entries)) expression.now) else None)) }
{
    if are_blocks_seen(edited, kept, fresh, blocks) {
        let seen = Seen {
            edited,
            kept,
            fresh,
        };
        let value = eval(alloc, expression, &seen)?;
        return Ok(Some(value));
    }
    Ok(None)
}
