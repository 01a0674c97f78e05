//! What cells show.
ghost use Rattle.std.specs.Prelude.{◌≡◌, [], Option, IfOk, unwrap_or};
ghost use Rattle.std.specs.List.Sorted.{IsStrictlySortedBy};
ghost use Rattle.std.specs.Map.{keys_of};
ghost use Rattle.std.specs.Option.{option_copied};
ghost use Rattle.std.specs.Fmt.{signed_decimal};
ghost use Rattle.formula_base.specs.declared.values.Value.TheVariants.{Fault};
ghost use Rattle.formula_base.specs.declared.values.CellFault.TheVariants.{Circ};
ghost use Rattle.formula_base.specs.Ranges.{position_cmp};
ghost use Rattle.part_calc.specs.Shown.{shown_value, fault_name};
ghost use Rattle.part_calc.specs.Fates.{fate_shown, text_shown};

use crate::contents::{Cell, Content};
use crate::looking::Fresh;
use cool_base::{Memory, TextOf};
use formula_base::{CellFault, Value};
use std::alloc::Global;
use std::collections::BTreeMap;
use std::marker::Model;

/// What becomes of a formula, which is how contracts see it: its value, and none where it is circular;
/// and the text that it shows.
#[derive(Drop)]
pub struct Kept {
    value: Option<Value>,
    text: TextOf,
}

impl Model for Kept {
    ghost use Rattle.std.specs.Prelude.{◌≡◌, Option, unwrap_or};
    ghost use Rattle.formula_base.specs.declared.values.Value.{Value as CellValue};
    ghost use Rattle.formula_base.specs.declared.values.Value.TheVariants.{Fault};
    ghost use Rattle.formula_base.specs.declared.values.CellFault.TheVariants.{Circ};
    ghost use Rattle.part_calc.specs.Shown.{shown_value};

    ghost Value = { Option CellValue };

    ghost view = { λ kept. kept.value };

    ghost invariant = { λ kept. kept.text ≡ shown_value (unwrap_or kept.value (Fault Circ)) };
}

impl Kept {
    /// What becomes of a formula with this value, and of a circular one.
    pub fn of(alloc: Global, value: Option<Value>) -> Result<Kept, Memory>
        ensures { IfOk result (λ kept. kept ≡ value) }
    {
        let text = fate_text(alloc, &value)?;
        Ok(Kept { value, text })
    }

    /// The value, unless the formula is circular.
    pub fn value(&self) -> Option<&Value>
        ensures { option_copied result ≡ self.now }
    {
        self.value.as_ref()
    }

    /// What the formula shows.
    pub fn text(&self) -> &str
        ensures { result.now ≡ shown_value (unwrap_or self.now (Fault Circ)) }
    {
        self.text.get()
    }
}

/// What becomes of formulas, by their cells.
pub type Fates = BTreeMap<(u32, u32), Kept>;

/// What was found of some cells, with the texts that they show, by rows and then columns.
pub fn seal(alloc: Global, fresh: Fresh) -> Result<Vec<((u32, u32), Kept)>, Memory>
    ensures same { IfOk result (λ fates. fates.items ≡ fresh.entries) }
    ensures ordered { IfOk result (λ fates. IsStrictlySortedBy position_cmp (keys_of fresh.entries)) }
{
    let _count = fresh.len();
    let mut fates = Vec::new(alloc);
    for (position, value) in fresh {
        fates.push((position, Kept::of(alloc, value)?))?;
    }
    Ok(fates)
}

/// What a cell with this raw text shows, given what becomes of its formula.
pub fn cell_text<'a>(cell: Option<&'a Cell>, found: Option<&'a Kept>) -> &'a str
    ensures { result.now ≡ text_shown (unwrap_or (option_copied cell.entry) []) (option_copied found.entry) }
{
    match cell {
        None => "",
        Some(cell) => match cell.content() {
            Content::Plain(_) => cell.raw(),
            Content::Formula(_) => text_or_none(found),
        },
    }
}

// What a formula shows, and the empty text where nothing stands for it.
fn text_or_none<'a>(found: Option<&'a Kept>) -> &'a str
    ensures { result.now ≡ fate_shown (option_copied found.entry) }
{
    match found {
        Some(fate) => fate.text(),
        None => "",
    }
}

// What a formula shows that has this value, or is circular.
fn fate_text(alloc: Global, value: &Option<Value>) -> Result<TextOf, Memory>
    ensures { IfOk result (λ text. text ≡ shown_value (unwrap_or value.now (Fault Circ))) }
{
    match value {
        Some(value) => value_text(alloc, value),
        None => text_of(alloc, fault_name(CellFault::Circ)),
    }
}

// What a formula with this value shows.
fn value_text(alloc: Global, value: &Value) -> Result<TextOf, Memory>
    ensures { IfOk result (λ text. text ≡ shown_value value.now) }
{
    match value {
        Value::Empty => text_of(alloc, "0"),
        Value::Number(number) => number_text(alloc, *number),
        Value::Words(name) => text_of(alloc, name.get()),
        Value::Fault(fault) => text_of(alloc, fault_name(*fault)),
    }
}

// The number in decimal.
fn number_text(alloc: Global, number: i64) -> Result<TextOf, Memory>
    ensures { IfOk result (λ text. text ≡ signed_decimal number) }
{
    let text = format!(in alloc; "{number}")?;
    Ok(TextOf::of(text))
}

// A copy of the text.
fn text_of(alloc: Global, text: &str) -> Result<TextOf, Memory>
    ensures { IfOk result (λ copy. copy ≡ text.now) }
{
    Ok(TextOf::of(String::from_str(alloc, text)?))
}

// The error's name.
fn fault_name(fault: CellFault) -> &'static str
    ensures { result.now ≡ fault_name fault }
{
    match fault {
        CellFault::Num => "#NUM!",
        CellFault::Div0 => "#DIV/0!",
        CellFault::Value => "#VALUE!",
        CellFault::Circ => "#CIRC!",
    }
}
