//! Formulas that were read. No brackets and no blanks are kept. An expression is nested at most as
//! deep as the brackets, calls and leading minus signs of its text: a chain of signs, however long,
//! is a list.

use crate::values::Name;
use sqlite_items::{Boxed, Items};

/// A sign between two numbers.
#[derive(Clone, Copy)]
pub enum Operator {
    Add,
    Subtract,
    Multiply,
    Divide,
}

/// A sign that compares two values.
#[derive(Clone, Copy)]
pub enum Comparison {
    Equal,
    NotEqual,
    Less,
    Greater,
    AtMost,
    AtLeast,
}

/// A function of any number of values.
#[derive(Clone, Copy)]
pub enum Function {
    Sum,
    Min,
    Max,
    Count,
}

/// An argument of a function: the cells between two corners, each a row and a column counted from 0,
/// or one expression.
#[derive(Drop)]
pub enum Argument<E> {
    Range((u32, u32), (u32, u32)),
    One(E),
}

/// A sign and what stands behind it.
#[derive(Drop)]
pub struct Link<E> {
    pub operator: Operator,
    pub operand: E,
}

/// An expression.
#[derive(Drop)]
pub enum Expr {
    Number(i64),
    Words(Name),
    /// A cell by its row and column, counted from 0.
    Cell((u32, u32)),
    Negate(Boxed<Expr>),
    /// A first operand and the signs behind it, all of one level, grouped from the left.
    Chain(Boxed<Expr>, Items<Link<Expr>>),
    Compare(Comparison, Boxed<Expr>, Boxed<Expr>),
    Call(Function, Items<Argument<Expr>>),
    /// The condition, the value where it holds, and the value where it doesn't.
    If(Boxed<Expr>, Boxed<Expr>, Boxed<Expr>),
}
