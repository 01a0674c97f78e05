//! Texts of formulas: which texts are formulas, and the expression that each of them says.
//!
//! - `read_formula` (`formulas`): the expression that a raw text holds.
#![tactic(auto)]

mod bare;
mod formulas;
mod levels;
mod quotes;
mod rules;
mod signs;
mod stop;
mod tokenizing;
mod tokens;
mod trees;

pub use formulas::read_formula;
