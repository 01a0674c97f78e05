//! What is gathered of the values of a function's arguments.
ghost use Rattle.std.specs.Prelude.{◌≡◌, ◌<◌, ◌^◌, pos, ◌+ℤ◌, ℤ, List, length, fold, map, OnOk};
ghost use Rattle.std.specs.Int.{int_min, int_max};
ghost use Rattle.formula_base.specs.Values.{number};
ghost use Rattle.formula_base.specs.Evaluation.{least, greatest, function_of};

use crate::expressions::Function;
use crate::values::{CellFault, Value};
use cool_base::{ListOf, Memory};
use std::alloc::Global;

/// The numbers among values and their first error.
#[derive(Drop)]
pub struct Gathered {
    pub numbers: ListOf<i64>,
    pub fault: Option<CellFault>,
}

impl Gathered {
    ghost use Rattle.formula_base.specs.Gathering.{gathered, with_value};
    ghost use Rattle.std.specs.Prelude.{[]};

    /// Nothing yet.
    pub fn new(alloc: Global) -> Gathered
        ensures { result ≡ gathered [] }
    {
        Gathered {
            numbers: ListOf::new(alloc),
            fault: None,
        }
    }

    /// Takes the next value.
    pub fn add(&mut self, value: &Value) -> Result<(), Memory>
        ensures { OnOk result (self.new ≡ with_value self.old value.now) }
    {
        match value {
            Value::Number(number) => self.numbers.push(*number),
            Value::Fault(fault) => {
                if self.fault.is_none() {
                    self.fault = Some(*fault);
                }
                Ok(())
            }
            _ => Ok(()),
        }
    }

    /// The value of the function.
    pub fn value(&self, function: Function) -> Value
        ensures { result ≡ function_of function self.now.fault self.now.numbers }
    {
        let numbers = self.numbers.get();
        if let Function::Count = function {
            return Value::Number(numbers.len() as i64);
        }
        if let Some(fault) = self.fault {
            return Value::Fault(fault);
        }
        match function {
            Function::Min => Value::Number(least(numbers)),
            Function::Max => Value::Number(greatest(numbers)),
            _ => number(sum(numbers)),
        }
    }
}

// The whole sum.
fn sum(numbers: &[i64]) -> i128
    requires { length numbers.now < 2 ^ 63 }
    ensures { result ≡ fold ◌+ℤ◌ (pos 0) numbers.now }
{
    let mut total: i128 = 0;
    for number in numbers {
        total += i128::from(*number);
    }
    total
}

// The number as a value.
fn number(whole: i128) -> Value
    ensures { result ≡ number whole }
{
    if whole < -9_223_372_036_854_775_808 || whole > 9_223_372_036_854_775_807 {
        Value::Fault(CellFault::Num)
    } else {
        Value::Number(whole as i64)
    }
}

// The least number, 0 where there is none.
fn least(numbers: &[i64]) -> i64
    ensures { result ≡ least numbers.now }
{
    match numbers {
        [] => 0,
        [first, others @ ..] => least_from(*first, others),
    }
}

// The least of a number and others.
fn least_from(first: i64, others: &[i64]) -> i64
    ensures { result ≡ fold int_min first others.now }
{
    let mut found = first;
    for number in others {
        found = found.min(*number);
    }
    found
}

// The greatest number, 0 where there is none.
fn greatest(numbers: &[i64]) -> i64
    ensures { result ≡ greatest numbers.now }
{
    match numbers {
        [] => 0,
        [first, others @ ..] => greatest_from(*first, others),
    }
}

// The greatest of a number and others.
fn greatest_from(first: i64, others: &[i64]) -> i64
    ensures { result ≡ fold int_max first others.now }
{
    let mut found = first;
    for number in others {
        found = found.max(*number);
    }
    found
}
