//! Signs over values.
ghost use Rattle.std.specs.Prelude.{◌≡◌};
ghost use Rattle.formula_base.specs.declared.expressions.Operator.TheVariants as sign;
ghost use Rattle.formula_base.specs.Values.{number_or_num, operand, arithmetic, combined, negated, order, as_number, holds, truth, compared, chosen};

use crate::expressions::{Comparison, Operator};
use crate::values::{CellFault, Value};
use std::cmp::Ordering;

/// The value of two operands and the sign between them.
pub(crate) fn combined(operator: Operator, left: &Value, right: &Value) -> Value
    ensures { result ≡ combined operator left.now right.now }
{
    match (operand(left), operand(right)) {
        (Err(fault), _) => Value::Fault(fault),
        (Ok(_), Err(fault)) => Value::Fault(fault),
        (Ok(left), Ok(right)) => arithmetic(operator, left, right),
    }
}

/// The value of a minus sign and its operand.
pub(crate) fn negated(value: &Value) -> Value
    ensures { result ≡ negated value.now }
{
    match operand(value) {
        Err(fault) => Value::Fault(fault),
        Ok(number) => number_or_fault(number.checked_neg()),
    }
}

/// 1 where the comparison holds of the two values, else 0; an error gives itself, the left first.
pub(crate) fn compared(comparison: Comparison, left: &Value, right: &Value) -> Value
    ensures { result ≡ compared comparison left.now right.now }
{
    if let Value::Fault(fault) = left {
        return Value::Fault(*fault);
    }
    if let Value::Fault(fault) = right {
        return Value::Fault(*fault);
    }
    truth(holds(comparison, order(left, right)))
}

// The number that counts for the value between signs, or the error.
fn operand(value: &Value) -> Result<i64, CellFault>
    ensures { result ≡ operand value.now }
{
    match value {
        Value::Empty => Ok(0),
        Value::Number(number) => Ok(*number),
        Value::Words(_) => Err(CellFault::Value),
        Value::Fault(fault) => Err(*fault),
    }
}

// The value of two numbers and the sign between them.
fn arithmetic(operator: Operator, left: i64, right: i64) -> Value
    ensures { result ≡ arithmetic operator left right }
{
    match operator {
        Operator::Add => number_or_fault(left.checked_add(right)),
        Operator::Subtract => number_or_fault(left.checked_sub(right)),
        Operator::Multiply => number_or_fault(left.checked_mul(right)),
        Operator::Divide => divided(left, right),
    }
}

// The quotient, towards zero.
fn divided(left: i64, right: i64) -> Value
    ensures { result ≡ arithmetic sign.Divide left right }
{
    if right == 0 {
        return Value::Fault(CellFault::Div0);
    }
    number_or_fault(left.checked_div(right))
}

// The number, or the error of a number out of range.
fn number_or_fault(number: Option<i64>) -> Value
    ensures { result ≡ number_or_num number }
{
    match number {
        Some(number) => Value::Number(number),
        None => Value::Fault(CellFault::Num),
    }
}

// How two values that are no errors compare.
fn order(left: &Value, right: &Value) -> Ordering
    ensures { result ≡ order left.now right.now }
{
    match (left, right) {
        (Value::Words(left), Value::Words(right)) => left.get().cmp(&right.get()),
        (Value::Words(left), Value::Empty) => left.get().cmp(&""),
        (Value::Empty, Value::Words(right)) => "".cmp(&right.get()),
        (Value::Words(_), _) => Ordering::Greater,
        (_, Value::Words(_)) => Ordering::Less,
        (left, right) => as_number(left).cmp(&as_number(right)),
    }
}

// The number of a Number, 0 for all else.
fn as_number(value: &Value) -> i64
    ensures { result ≡ as_number value.now }
{
    match value {
        Value::Number(number) => *number,
        _ => 0,
    }
}

// Whether the comparison holds of values that compare so.
fn holds(comparison: Comparison, order: Ordering) -> bool
    ensures { result ≡ holds comparison order }
{
    match comparison {
        Comparison::Equal => order.is_eq(),
        Comparison::NotEqual => order.is_ne(),
        Comparison::Less => order.is_lt(),
        Comparison::Greater => order.is_gt(),
        Comparison::AtMost => order.is_le(),
        Comparison::AtLeast => order.is_ge(),
    }
}

// 1 or 0.
fn truth(holds: bool) -> Value
    ensures { result ≡ truth holds }
{
    if holds {
        Value::Number(1)
    } else {
        Value::Number(0)
    }
}
