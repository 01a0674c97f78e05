//! Levels of precedence.
ghost use Rattle.std.specs.Prelude.{◌≡◌};
ghost use Rattle.sheet_formula.specs.Grammar.{is_of_level, inner_level};

use formula_base::Operator;

/// A level of what stands between signs: sums of products of facts.
#[derive(Clone, Copy)]
pub enum Level {
    Fact,
    Product,
    Sum,
}

impl Level {
    /// The level of the operands of this one.
    pub fn inner(self) -> Option<Level>
        ensures { result ≡ inner_level self }
    {
        match self {
            Level::Fact => None,
            Level::Product => Some(Level::Fact),
            Level::Sum => Some(Level::Product),
        }
    }
}

/// Whether the sign stands between the operands of the level.
pub fn is_of_level(level: Level, operator: Operator) -> bool
    ensures { result ≡ is_of_level level operator }
{
    match (level, operator) {
        (Level::Sum, Operator::Add | Operator::Subtract) => true,
        (Level::Product, Operator::Multiply | Operator::Divide) => true,
        _ => false,
    }
}
