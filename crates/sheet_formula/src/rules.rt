//! The rules of the grammar, over words and signs, each of which takes what it reads from the front.
//! Chains of signs and arguments are read by loops; a rule calls itself only inside a bracket, a call
//! or behind a leading minus sign, each of which takes one of the depth.
ghost use Rattle.std.specs.Prelude.{◌≡◌, length};
ghost use Rattle.sheet_formula.specs.Reading.{Gives};
ghost use Rattle.sheet_formula.specs.Grammar.{level_of, comparison, part, fact, nested, choice, arguments, argument_of, joined, close_sign, comma_sign};

use crate::levels::Level;
use crate::stop::Stop;
use crate::tokens::Token;
use crate::{signs, trees};
use formula_base::{Argument, Expr, Link, Operator};
use sqlite_items::Items;
use std::alloc::Global;
use std::collections::VecDeque;

/// A sum, or two sums with a sign between them that compares them.
#[cycle(rules)]
#[tactic(auto, unfolding(crate::specs::Grammar::comparison, crate::specs::Grammar::compared_with))]
pub fn comparison(alloc: Global, tokens: &mut VecDeque<Token>, depth: u32) -> Result<Expr, Stop>
    ensures { Gives (comparison (fact depth) tokens.old.items) result tokens.new.items }
{
    let left = level(alloc, tokens, depth, Level::Sum)?;
    let Some(sign) = signs::take_comparison(tokens) else {
        return Ok(left);
    };
    let right = level(alloc, tokens, depth, Level::Sum)?;
    Ok(trees::compared(alloc, sign, left, right)?)
}

// Operands of a level with signs of it between them.
#[cycle(rules)]
#[tactic(auto, unfolding(crate::specs::Grammar::level_of, crate::specs::Grammar::chain))]
fn level(alloc: Global, tokens: &mut VecDeque<Token>, depth: u32, this: Level) -> Result<Expr, Stop>
    ensures { Gives (level_of this (fact depth) tokens.old.items) result tokens.new.items }
{
    let Some(inner) = this.inner() else {
        return fact(alloc, tokens, depth);
    };
    let first = level(alloc, tokens, depth, inner)?;
    let mut links = Items::new(alloc);
    for _turn in 0..tokens.len() {
        let Some(operator) = signs::take_sign(tokens, this) else {
            break;
        };
        let operand = level(alloc, tokens, depth, inner)?;
        links.push(Link { operator, operand })?;
    }
    Ok(trees::joined(alloc, first, links)?)
}

// A fact: a number, a text, a cell, or what takes one of the depth.
#[cycle(rules)]
#[tactic(auto, unfolding(crate::specs::Grammar::fact))]
fn fact(alloc: Global, tokens: &mut VecDeque<Token>, depth: u32) -> Result<Expr, Stop>
    ensures { Gives (fact depth tokens.old.items) result tokens.new.items }
{
    match signs::next(tokens)? {
        Token::Number(number) => Ok(Expr::Number(number)),
        Token::Words(text) => Ok(Expr::Words(text)),
        Token::Cell(position) => Ok(Expr::Cell(position)),
        token => {
            if depth == 0 {
                return Err(Stop::NoFormula);
            }
            nested(alloc, tokens, depth - 1, token)
        }
    }
}

// What stands behind the first token of a bracket, a call or a leading minus sign.
#[cycle(rules)]
#[tactic(auto, unfolding(crate::specs::Grammar::nested))]
fn nested(
    alloc: Global,
    tokens: &mut VecDeque<Token>,
    depth: u32,
    token: Token,
) -> Result<Expr, Stop>
    ensures { Gives (nested (fact depth) token tokens.old.items) result tokens.new.items }
{
    match token {
        Token::Sign(Operator::Subtract) => {
            let operand = fact(alloc, tokens, depth)?;
            Ok(trees::negated(alloc, operand)?)
        }
        Token::Open => closed(alloc, tokens, depth),
        Token::Function(function) => {
            signs::open_sign(tokens)?;
            let values = arguments(alloc, tokens, depth)?;
            Ok(Expr::Call(function, values))
        }
        Token::If => choice(alloc, tokens, depth),
        _ => Err(Stop::NoFormula),
    }
}

// The brackets of a choice, with its three parts.
#[cycle(rules)]
#[tactic(auto, unfolding(crate::specs::Grammar::choice))]
fn choice(alloc: Global, tokens: &mut VecDeque<Token>, depth: u32) -> Result<Expr, Stop>
    ensures { Gives (choice (fact depth) tokens.old.items) result tokens.new.items }
{
    signs::open_sign(tokens)?;
    let condition = separated(alloc, tokens, depth)?;
    let first = separated(alloc, tokens, depth)?;
    let second = closed(alloc, tokens, depth)?;
    Ok(trees::chosen(alloc, condition, first, second)?)
}

// A comparison and the comma behind it.
#[cycle(rules)]
#[tactic(auto, unfolding(crate::specs::Grammar::part))]
fn separated(alloc: Global, tokens: &mut VecDeque<Token>, depth: u32) -> Result<Expr, Stop>
    ensures { Gives (part comma_sign (fact depth) tokens.old.items) result tokens.new.items }
{
    let value = comparison(alloc, tokens, depth)?;
    signs::comma_sign(tokens)?;
    Ok(value)
}

// A comparison and the closing bracket behind it.
#[cycle(rules)]
#[tactic(auto, unfolding(crate::specs::Grammar::part))]
fn closed(alloc: Global, tokens: &mut VecDeque<Token>, depth: u32) -> Result<Expr, Stop>
    ensures { Gives (part close_sign (fact depth) tokens.old.items) result tokens.new.items }
{
    let value = comparison(alloc, tokens, depth)?;
    signs::close_sign(tokens)?;
    Ok(value)
}

// The arguments of a function, and the closing bracket behind them.
#[cycle(rules)]
#[tactic(auto, unfolding(crate::specs::Grammar::arguments))]
fn arguments(
    alloc: Global,
    tokens: &mut VecDeque<Token>,
    depth: u32,
) -> Result<Items<Argument<Expr>>, Stop>
    ensures { Gives (arguments (fact depth) (length tokens.old.items) tokens.old.items) result tokens.new.items }
{
    let mut values = Items::new(alloc);
    for _turn in 0..tokens.len() {
        let value = argument(alloc, tokens, depth)?;
        values.push(value)?;
        match signs::next(tokens)? {
            Token::Comma => {}
            Token::Close => return Ok(values),
            _ => return Err(Stop::NoFormula),
        }
    }
    Err(Stop::NoFormula)
}

// An argument of a function.
#[cycle(rules)]
#[tactic(auto, unfolding(crate::specs::Grammar::argument_of))]
fn argument(alloc: Global, tokens: &mut VecDeque<Token>, depth: u32) -> Result<Argument<Expr>, Stop>
    ensures { Gives (argument_of (fact depth) tokens.old.items) result tokens.new.items }
{
    if signs::is_range(tokens) {
        return signs::range(tokens);
    }
    let value = comparison(alloc, tokens, depth)?;
    Ok(Argument::One(value))
}
