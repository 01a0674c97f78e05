//! Single words and signs at the front of others.
ghost use Rattle.std.specs.Prelude.{◌≡◌};
ghost use Rattle.sheet_formula.specs.Reading.{Gives, Takes, next};
ghost use Rattle.sheet_formula.specs.Grammar.{sign_of_level, comparison_sign, open_sign, close_sign, comma_sign, cell, is_range, range};

use crate::levels::{Level, is_of_level};
use crate::stop::Stop;
use crate::tokens::Token;
use formula_base::{Argument, Comparison, Expr, Operator};
use std::collections::VecDeque;

/// The next word or sign.
pub fn next(tokens: &mut VecDeque<Token>) -> Result<Token, Stop>
    ensures { Gives (next tokens.old.items) result tokens.new.items }
{
    match tokens.pop_front() {
        Some(token) => Ok(token),
        None => Err(Stop::NoFormula),
    }
}

/// A sign of the level, where one comes next.
pub fn take_sign(tokens: &mut VecDeque<Token>, level: Level) -> Option<Operator>
    ensures { Takes (sign_of_level level) tokens.old.items result tokens.new.items }
{
    let Some(Token::Sign(operator)) = tokens.front() else {
        return None;
    };
    let operator = *operator;
    if !is_of_level(level, operator) {
        return None;
    }
    let _ = tokens.pop_front();
    Some(operator)
}

/// A sign that compares, where one comes next.
pub fn take_comparison(tokens: &mut VecDeque<Token>) -> Option<Comparison>
    ensures { Takes comparison_sign tokens.old.items result tokens.new.items }
{
    let Some(Token::Compare(comparison)) = tokens.front() else {
        return None;
    };
    let comparison = *comparison;
    let _ = tokens.pop_front();
    Some(comparison)
}

/// An opening bracket.
pub fn open_sign(tokens: &mut VecDeque<Token>) -> Result<(), Stop>
    ensures { Gives (open_sign tokens.old.items) result tokens.new.items }
{
    match next(tokens)? {
        Token::Open => Ok(()),
        _ => Err(Stop::NoFormula),
    }
}

/// A closing bracket.
pub fn close_sign(tokens: &mut VecDeque<Token>) -> Result<(), Stop>
    ensures { Gives (close_sign tokens.old.items) result tokens.new.items }
{
    match next(tokens)? {
        Token::Close => Ok(()),
        _ => Err(Stop::NoFormula),
    }
}

/// A comma.
pub fn comma_sign(tokens: &mut VecDeque<Token>) -> Result<(), Stop>
    ensures { Gives (comma_sign tokens.old.items) result tokens.new.items }
{
    match next(tokens)? {
        Token::Comma => Ok(()),
        _ => Err(Stop::NoFormula),
    }
}

/// A cell.
pub fn cell(tokens: &mut VecDeque<Token>) -> Result<(u32, u32), Stop>
    ensures { Gives (cell tokens.old.items) result tokens.new.items }
{
    match next(tokens)? {
        Token::Cell(position) => Ok(position),
        _ => Err(Stop::NoFormula),
    }
}

/// Whether a cell and a colon come next.
pub fn is_range(tokens: &VecDeque<Token>) -> bool
    ensures { result ≡ is_range tokens.now.items }
{
    match (tokens.get(0), tokens.get(1)) {
        (Some(Token::Cell(_)), Some(Token::Colon)) => true,
        _ => false,
    }
}

/// A cell, a colon and a cell.
#[tactic(auto, unfolding(crate::specs::Grammar::range))]
pub fn range(tokens: &mut VecDeque<Token>) -> Result<Argument<Expr>, Stop>
    ensures { Gives (range tokens.old.items) result tokens.new.items }
{
    let first = cell(tokens)?;
    let _ = next(tokens)?;
    let last = cell(tokens)?;
    Ok(Argument::Range(first, last))
}
