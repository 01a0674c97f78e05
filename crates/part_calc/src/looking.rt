//! The values of cells as far as they are seen: found since the edit, or kept from before it.
ghost use Rattle.std.specs.Prelude.{◌≡◌, IfOk, unwrap_or};
ghost use Rattle.std.specs.Option.{is_some, option_copied};
ghost use Rattle.formula_base.specs.declared.values.Value.TheVariants.{Fault};
ghost use Rattle.formula_base.specs.declared.values.CellFault.TheVariants.{Circ};
ghost use Rattle.part_calc.specs.Finding.{seen_in, seen_at, look_at};
ghost use Rattle.part_calc.specs.Fates.{found_over};

use crate::contents::Content;
use crate::edited::Edited;
use crate::ranges::values_between;
use crate::shown::Fates;
use cool_base::Memory;
use formula_base::{CellFault, Lookup, Value};
use std::alloc::Global;
use std::collections::BTreeMap;

/// What was found since an edit, for each cell that it affects.
pub type Fresh = BTreeMap<(u32, u32), Option<Value>>;

/// The values of cells as far as they are seen.
#[derive(Clone, Copy)]
pub struct Seen<'a> {
    pub edited: &'a Edited<'a>,
    pub kept: &'a Fates,
    pub fresh: &'a Fresh,
}

impl<'a> Lookup for Seen<'a> {
    ghost value_at = { λ s position. look_at s.edited.now (found_over s.fresh.now.entries s.kept.now.entries) position };

    fn value(&self, alloc: Global, row: u32, col: u32) -> Result<Value, Memory> {
        seen_value(alloc, self.edited, self.kept, self.fresh, (row, col))
    }

    fn values(
        &self,
        alloc: Global,
        first: (u32, u32),
        last: (u32, u32),
    ) -> Result<Vec<Value>, Memory> {
        values_between(alloc, self.edited, self.kept, self.fresh, (first, last))
    }
}

/// The value that stands for a cell.
#[tactic(auto, unfolding(crate::specs::Fates::found_over))]
pub fn found<'a>(kept: &'a Fates, fresh: &'a Fresh, position: (u32, u32)) -> Option<&'a Value>
    ensures { option_copied result ≡ found_over fresh.now.entries kept.now.entries position }
{
    match fresh.get(&position) {
        Some(value) => value.as_ref(),
        None => match kept.get(&position) {
            Some(fate) => fate.value(),
            None => None,
        },
    }
}

/// Whether the cell's value is seen: the cell has no formula, or its value was found.
#[tactic(auto, using(crate::proofs::FindLaws::is_seen_plain, crate::proofs::FindLaws::seen_formula))]
pub fn is_seen(edited: &Edited<'_>, kept: &Fates, fresh: &Fresh, position: (u32, u32)) -> bool
    ensures { result ≡ is_some (seen_at edited.now (found_over fresh.now.entries kept.now.entries) position) }
{
    match edited.formula(position) {
        Some(_) => found(kept, fresh, position).is_some(),
        None => true,
    }
}

/// The value of a cell for a formula that names it.
#[tactic(auto, using(crate::proofs::FindLaws::look_through, crate::proofs::FindLaws::look_empty))]
pub fn seen_value(
    alloc: Global,
    edited: &Edited<'_>,
    kept: &Fates,
    fresh: &Fresh,
    position: (u32, u32),
) -> Result<Value, Memory>
    ensures { IfOk result (λ value. value ≡ look_at edited.now (found_over fresh.now.entries kept.now.entries) position) }
{
    match edited.content(position) {
        Some(content) => content_value(alloc, kept, fresh, position, content),
        None => Ok(Value::Empty),
    }
}

/// The value of a cell whose text says this, for a formula that names it.
pub fn content_value(
    alloc: Global,
    kept: &Fates,
    fresh: &Fresh,
    position: (u32, u32),
    content: &Content,
) -> Result<Value, Memory>
    ensures { IfOk result (λ value. value ≡ unwrap_or (seen_in content.now (found_over fresh.now.entries kept.now.entries position)) (Fault Circ)) }
{
    match content {
        Content::Plain(value) => value.copy(alloc),
        Content::Formula(_) => found_value(alloc, kept, fresh, position),
    }
}

// The value that stands for a cell, and else that of a circular one.
fn found_value(
    alloc: Global,
    kept: &Fates,
    fresh: &Fresh,
    position: (u32, u32),
) -> Result<Value, Memory>
    ensures { IfOk result (λ value. value ≡ unwrap_or (found_over fresh.now.entries kept.now.entries position) (Fault Circ)) }
{
    match found(kept, fresh, position) {
        Some(value) => value.copy(alloc),
        None => Ok(Value::Fault(CellFault::Circ)),
    }
}

/// Whether the value of a cell whose text says this is seen.
pub fn is_content_seen(kept: &Fates, fresh: &Fresh, position: (u32, u32), content: &Content) -> bool
    ensures { result ≡ is_some (seen_in content.now (found_over fresh.now.entries kept.now.entries position)) }
{
    match content {
        Content::Plain(_) => true,
        Content::Formula(_) => found(kept, fresh, position).is_some(),
    }
}
