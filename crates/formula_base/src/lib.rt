//! Expressions of a sheet: what a cell can have as its value, what a formula can say, the value of an
//! expression and the cells that it names. Texts of formulas are read by `sheet_formula`.
//!
//! - `Value`, `CellFault`, `Name` (`values`): what a cell can have as its value.
//! - `Expr` (`expressions`): a formula that was read.
//! - `eval`, `Lookup` (`evaluation`): the value of an expression, given the values of cells.
//! - `reads`, `blocks` (`naming`): the cells that an expression names, each alone, and as blocks.
#![tactic(auto)]

mod arithmetic;
mod evaluation;
mod expressions;
mod gathering;
mod naming;
mod spans;
mod values;

pub use evaluation::{Lookup, each_value, eval, push_filled};
pub use expressions::{Argument, Comparison, Expr, Function, Link, Operator};
pub use naming::{Block, blocks, reads};
pub use values::{CellFault, Name, Value};
