//! Cases of one text: names of cells, plain texts, and formulas with their values and the cells that they
//! name.
ghost use Rattle.std.specs.Prelude.{◌≡◌, pos};
ghost use Rattle.formula_base.specs.declared.values.Value.TheVariants.{Empty, Number};

use crate::spelling::number;
use cool_base::Memory;
use formula_base::{CellFault, Expr, Lookup, Value, each_value, eval, reads};
use sheet_cells::{Plain, read_plain, read_ref};
use sheet_formula::read_formula;
use std::alloc::Global;
use std::io::Print;

/// The number of a row that no formula can name.
pub const NO_ROW: u32 = 4096;

// Cells with the number 7 in one row, and nothing in the others.
#[derive(Clone, Copy)]
struct Sevens {
    row: u32,
}

impl Lookup for Sevens {
    ghost use Rattle.std.specs.Prelude.{◌==◌, if◌then◌else◌};

    ghost value_at = { λ cells position. if position.0 == cells.row then Number (pos 7) else Empty };

    fn value(&self, _alloc: Global, row: u32, _col: u32) -> Result<Value, Memory> {
        if row == self.row {
            Ok(Value::Number(7))
        } else {
            Ok(Value::Empty)
        }
    }

    fn values(
        &self,
        alloc: Global,
        first: (u32, u32),
        last: (u32, u32),
    ) -> Result<Vec<Value>, Memory> {
        each_value(alloc, &OneByOne { row: self.row }, first, last)
    }
}

// The same cells, which are looked up one by one alone: as a range it has no memory.
#[derive(Drop)]
struct OneByOne {
    row: u32,
}

impl Lookup for OneByOne {
    ghost use Rattle.std.specs.Prelude.{◌==◌, if◌then◌else◌};

    ghost value_at = { λ cells position. if position.0 == cells.row then Number (pos 7) else Empty };

    fn value(&self, _alloc: Global, row: u32, _col: u32) -> Result<Value, Memory> {
        if row == self.row {
            Ok(Value::Number(7))
        } else {
            Ok(Value::Empty)
        }
    }

    fn values(
        &self,
        _alloc: Global,
        _first: (u32, u32),
        _last: (u32, u32),
    ) -> Result<Vec<Value>, Memory> {
        Err(Memory)
    }
}

/// The cell of a name.
pub fn name(rt: &impl Print, text: &str) -> anyhow::Result<()> {
    match read_ref(text) {
        Some((row, col)) => println!(rt; "  {row},{col}")?,
        None => println!(rt; "  none")?,
    }
    Ok(())
}

/// What a raw text without a formula is.
pub fn plain(rt: &impl Print, text: &str) -> anyhow::Result<()> {
    match read_plain(text) {
        Plain::Empty => println!(rt; "  empty")?,
        Plain::Number(number) => println!(rt; "  number {number}")?,
        Plain::Text => println!(rt; "  text")?,
    }
    Ok(())
}

/// The value of a formula where one row has sevens, and the cells that it names.
pub fn formula(rt: &impl Print, alloc: Global, raw: &str, row: u32) -> anyhow::Result<()> {
    match read_formula(alloc, raw)? {
        Some(expression) => valued(rt, alloc, &expression, row),
        None => Ok(println!(rt; "  none")?),
    }
}

// The value of the expression where one row has sevens, and the cells that it names.
fn valued(rt: &impl Print, alloc: Global, expression: &Expr, row: u32) -> anyhow::Result<()> {
    let cells = Sevens { row };
    let value = eval(alloc, expression, &cells)?;
    print!(rt; "  {}", spelled(alloc, &value)?.as_str())?;
    let names = reads(alloc, expression)?;
    for (row, col) in names.as_slice() {
        print!(rt; " {row},{col}")?;
    }
    Ok(println!(rt; "")?)
}

// How a value is printed.
fn spelled(alloc: Global, value: &Value) -> Result<String, Memory> {
    match value {
        Value::Empty => Ok(String::from_str(alloc, "empty")?),
        Value::Number(number) => Ok(format!(in alloc; "number {number}")?),
        Value::Words(words) => Ok(format!(in alloc; "text [{}]", words.get())?),
        Value::Fault(fault) => Ok(String::from_str(alloc, fault_name(*fault))?),
    }
}

// The name of an error.
fn fault_name(fault: CellFault) -> &'static str {
    match fault {
        CellFault::Num => "#NUM!",
        CellFault::Div0 => "#DIV/0!",
        CellFault::Value => "#VALUE!",
        CellFault::Circ => "#CIRC!",
    }
}

/// A formula of `<n> <open> <close>`: n times `<open>`, then `1`, then n times `<close>`.
pub fn nested(rt: &impl Print, alloc: Global, text: &str) -> anyhow::Result<()> {
    let (depth, signs) = text.split_once(' ').unwrap_or((text, ""));
    let (open, close) = signs.split_once(' ').unwrap_or((signs, ""));
    let depth = number(depth).min(100);
    let mut raw = String::from_str(alloc, "=")?;
    for _ in 0..depth {
        raw.push_str(open)?;
    }
    raw.push_str("1")?;
    for _ in 0..depth {
        raw.push_str(close)?;
    }
    formula(rt, alloc, &raw, NO_ROW)
}
