//! The value of an expression, given the values of cells.
ghost use Rattle.std.specs.Prelude.{◌≡◌, ◌++◌, ◌∷◌, [], IfOk, OnOk, fold, map};
ghost use Rattle.std.specs.List.{filter};
ghost use Rattle.formula_base.specs.Values.{chosen};
ghost use Rattle.formula_base.specs.Ranges.{Position, cells_between};
ghost use Rattle.formula_base.specs.Evaluation.{eval_of};
ghost use Rattle.formula_base.specs.Gathering.{is_filled, with_value};
ghost use Rattle.formula_base.specs.declared.values.Value.{Value};

use crate::arithmetic::{combined, compared, negated};
use crate::expressions::{Argument, Expr};
use crate::gathering::Gathered;
use crate::spans::cells_between;
use crate::values::{CellFault, Value};
use cool_base::Memory;
use std::alloc::Global;

/// The values of the cells of a part.
pub trait Lookup {
    /// The value of the cell at a position, a row and a column.
    ghost value_at: { Self → Position → Value };

    /// The value of the cell at a row and a column, counted from 0.
    fn value(&self, alloc: Global, row: u32, col: u32) -> Result<Value, Memory>
        ensures { IfOk result (λ value. value ≡ value_at self.now (row, col)) };

    /// The values of the cells between two corners, row by row, without those that are Empty. So the
    /// cells that aren't there need not be gone through.
    fn values(
        &self,
        alloc: Global,
        first: (u32, u32),
        last: (u32, u32),
    ) -> Result<Vec<Value>, Memory>
        ensures { IfOk result (λ values. values.items ≡ filter is_filled (map (value_at self.now) (cells_between first last))) };
}

/// The values of the cells between two corners that aren't Empty, row by row, each looked up: for a
/// look-up that doesn't know which cells are there.
pub fn each_value<L: Lookup>(
    alloc: Global,
    lookup: &L,
    first: (u32, u32),
    last: (u32, u32),
) -> Result<Vec<Value>, Memory>
    ensures { IfOk result (λ values. values.items ≡ filter is_filled (map (L.value_at lookup.now) (cells_between first last))) }
{
    let cells = cells_between(alloc, first, last)?;
    let mut values = Vec::new(alloc);
    for position in &cells {
        let value = lookup.value(alloc, position.0, position.1)?;
        push_filled(&mut values, value)?;
    }
    Ok(values)
}

/// Adds a value, unless it is Empty.
pub fn push_filled(values: &mut Vec<Value>, value: Value) -> Result<(), Memory>
    ensures { OnOk result (values.new.items ≡ values.old.items ++ filter is_filled (value ∷ [])) }
{
    match value {
        Value::Empty => Ok(()),
        value => Ok(values.push(value)?),
    }
}

/// The value of the expression where cells have the values that `lookup` gives.
pub fn eval<L: Lookup>(alloc: Global, expr: &Expr, lookup: &L) -> Result<Value, Memory>
    ensures { IfOk result (λ value. value ≡ eval_of (L.value_at lookup.now) expr.now) }
{
    match expr {
        Expr::Number(number) => Ok(Value::Number(*number)),
        Expr::Words(name) => Ok(Value::Words(name.copy(alloc)?)),
        Expr::Cell(position) => lookup.value(alloc, position.0, position.1),
        Expr::Negate(operand) => {
            let value = eval(alloc, operand.get(), lookup)?;
            Ok(negated(&value))
        }
        Expr::Chain(first, links) => {
            let mut left = eval(alloc, first.get(), lookup)?;
            for link in links.as_slice() {
                let right = eval(alloc, &link.operand, lookup)?;
                left = combined(link.operator, &left, &right);
            }
            Ok(left)
        }
        Expr::Compare(comparison, left, right) => {
            let left = eval(alloc, left.get(), lookup)?;
            let right = eval(alloc, right.get(), lookup)?;
            Ok(compared(*comparison, &left, &right))
        }
        Expr::Call(function, arguments) => {
            let mut gathered = Gathered::new(alloc);
            for argument in arguments.as_slice() {
                match argument {
                    Argument::Range(first, last) => {
                        gather_range(alloc, &mut gathered, lookup, *first, *last)?;
                    }
                    Argument::One(value) => {
                        let value = eval(alloc, value, lookup)?;
                        gathered.add(&value)?;
                    }
                }
            }
            Ok(gathered.value(*function))
        }
        Expr::If(condition, first, second) => {
            let condition = eval(alloc, condition.get(), lookup)?;
            let first = eval(alloc, first.get(), lookup)?;
            let second = eval(alloc, second.get(), lookup)?;
            Ok(chosen(condition, first, second))
        }
    }
}

// Takes the values of the cells between two corners. An Empty one adds nothing.
fn gather_range<L: Lookup>(
    alloc: Global,
    gathered: &mut Gathered,
    lookup: &L,
    first: (u32, u32),
    last: (u32, u32),
) -> Result<(), Memory>
    ensures { OnOk result (gathered.new ≡ fold with_value gathered.old (map (L.value_at lookup.now) (cells_between first last))) }
{
    let values = lookup.values(alloc, first, last)?;
    for value in &values {
        gathered.add(value)?;
    }
    Ok(())
}

// The value of a choice between two values.
fn chosen(condition: Value, first: Value, second: Value) -> Value
    ensures { result ≡ chosen condition first second }
{
    match condition {
        Value::Fault(fault) => Value::Fault(fault),
        Value::Words(_) => Value::Fault(CellFault::Value),
        Value::Empty => second,
        Value::Number(number) => { if number == 0 { second } else { first } }
    }
}
