//! The expression that a raw text holds.
ghost use Rattle.std.specs.Prelude.{◌≡◌, IfOk};
ghost use Rattle.sheet_formula.specs.Tokenizing.{Makes};
ghost use Rattle.sheet_formula.specs.Grammar.{formula_of, formula};

use crate::rules::comparison;
use crate::stop::Stop;
use crate::tokenizing::tokenize;
use crate::tokens::Token;
use cool_base::Memory;
use formula_base::Expr;
use std::alloc::Global;
use std::collections::VecDeque;

/// How many brackets, calls and leading minus signs may be open at a place of a formula.
pub const MAX_DEPTH: u32 = 64;

/// The expression that the raw text holds: the text begins with `=`, and its rest is a formula. None
/// exactly where it holds none.
pub fn read_formula(alloc: Global, raw: &str) -> Result<Option<Expr>, Memory>
    ensures { IfOk result (λ expression. expression ≡ formula_of raw.now) }
{
    match behind_sign(alloc, raw) {
        Ok(expression) => Ok(Some(expression)),
        Err(Stop::NoFormula) => Ok(None),
        Err(Stop::Memory) => Err(Memory),
    }
}

// The formula behind a first `=`.
fn behind_sign(alloc: Global, raw: &str) -> Result<Expr, Stop>
    ensures { Makes (λ expression. expression) (formula_of raw.now) result }
{
    let Some(text) = raw.strip_prefix('=') else {
        return Err(Stop::NoFormula);
    };
    let mut tokens = tokenize(alloc, text)?;
    formula(alloc, &mut tokens)
}

// The words and signs as a formula, all of them.
#[tactic(auto, unfolding(crate::specs::Grammar::formula))]
fn formula(alloc: Global, tokens: &mut VecDeque<Token>) -> Result<Expr, Stop>
    ensures { Makes (λ expression. expression) (formula tokens.old.items) result }
{
    let expression = comparison(alloc, tokens, MAX_DEPTH)?;
    if tokens.is_empty() {
        Ok(expression)
    } else {
        Err(Stop::NoFormula)
    }
}
