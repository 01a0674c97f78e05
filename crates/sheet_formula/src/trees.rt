//! Expressions of parts.
ghost use Rattle.std.specs.Prelude.{◌≡◌, IfOk};
ghost use Rattle.formula_base.specs.declared.expressions.Expr.TheVariants.{Negate, Compare, If};
ghost use Rattle.sheet_formula.specs.Grammar.{joined};

use cool_base::Memory;
use formula_base::{Comparison, Expr, Link};
use sqlite_items::{Boxed, Items};
use std::alloc::Global;

/// A minus sign and its operand.
pub fn negated(alloc: Global, operand: Expr) -> Result<Expr, Memory>
    ensures { IfOk result (λ made. made ≡ Negate operand) }
{
    Ok(Expr::Negate(Boxed::new(alloc, operand)?))
}

/// An operand with the signs and operands behind it; with none it is the operand itself.
pub fn joined(alloc: Global, first: Expr, links: Items<Link<Expr>>) -> Result<Expr, Memory>
    ensures { IfOk result (λ made. made ≡ joined first links) }
{
    if links.is_empty() {
        return Ok(first);
    }
    Ok(Expr::Chain(Boxed::new(alloc, first)?, links))
}

/// Two values and the sign that compares them.
pub fn compared(alloc: Global, sign: Comparison, left: Expr, right: Expr) -> Result<Expr, Memory>
    ensures { IfOk result (λ made. made ≡ Compare sign left right) }
{
    let left = Boxed::new(alloc, left)?;
    let right = Boxed::new(alloc, right)?;
    Ok(Expr::Compare(sign, left, right))
}

/// A condition and the two values to choose from.
pub fn chosen(alloc: Global, condition: Expr, first: Expr, second: Expr) -> Result<Expr, Memory>
    ensures { IfOk result (λ made. made ≡ If condition first second) }
{
    let condition = Boxed::new(alloc, condition)?;
    let first = Boxed::new(alloc, first)?;
    let second = Boxed::new(alloc, second)?;
    Ok(Expr::If(condition, first, second))
}
