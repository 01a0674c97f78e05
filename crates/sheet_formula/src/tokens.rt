//! Words and signs.

use formula_base::{Comparison, Function, Name, Operator};

/// A word or a sign of a formula.
#[derive(Drop)]
pub enum Token {
    /// A number, from 0 on.
    Number(i64),
    /// A text that stands in quotes.
    Words(Name),
    /// A cell by its row and column, counted from 0.
    Cell((u32, u32)),
    Function(Function),
    If,
    Sign(Operator),
    Compare(Comparison),
    Open,
    Close,
    Comma,
    Colon,
}
