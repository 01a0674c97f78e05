//! Numbers, names and signs at the front of a text.
ghost use Rattle.std.specs.Prelude.{◌≡◌, ◌<◌, ◌≤◌, ◌==◌, length, slice_index, IfSome, if◌then◌else◌};
ghost use Rattle.std.specs.List.{prefix_len};
ghost use Rattle.std.specs.Char.{is_ascii_digit};
ghost use Rattle.sheet_cells.specs.References.{is_name_letter};
ghost use Rattle.sheet_formula.specs.Tokens.{sign_of, compared_of, is_named, function_of, name_of, name_at, number_at, sign_at, bare_at};
ghost use Rattle.sheet_formula.specs.Tokenizing.{Finds};

use crate::tokens::Token;
use cool_base::read_number;
use formula_base::{Comparison, Function, Operator};
use sheet_cells::{is_digit, is_name_letter, leading_letters, position_of};

/// The number, name or sign at the front of the text, and how many characters it takes.
pub fn bare_at(text: &[u8]) -> Option<(Token, usize)>
    requires { 0 < length text.now }
    ensures { Finds (bare_at (slice_index text.now 0) text.now) text.now result }
{
    if is_digit(text[0]) {
        number_at(text)
    } else if is_name_letter(text[0]) {
        name_at(text)
    } else {
        sign_at(text)
    }
}

// As many digits as there are, as a number.
fn number_at(text: &[u8]) -> Option<(Token, usize)>
    requires { 0 < prefix_len is_ascii_digit text.now }
    ensures { Finds (number_at text.now) text.now result }
{
    let len = leading_digits(text);
    let number = read_number(&text[..len], 19, 9_223_372_036_854_775_807)?;
    Some((Token::Number(number as i64), len))
}

// As many letters as there are, with the digits behind them.
fn name_at(text: &[u8]) -> Option<(Token, usize)>
    requires { 0 < prefix_len is_name_letter text.now }
    ensures { Finds (name_at text.now) text.now result }
{
    let letters = leading_letters(text);
    let behind = &text[letters..];
    let digits = leading_digits(behind);
    let token = name_of(&text[..letters], &behind[..digits])?;
    Some((token, letters + digits))
}

// The sign at the front.
fn sign_at(text: &[u8]) -> Option<(Token, usize)>
    requires { 0 < length text.now }
    ensures { Finds (sign_at text.now) text.now result }
{
    let second = if text.len() > 1 { text[1] } else { 0 };
    sign_of(text[0], second)
}

// How many digits the text begins with.
fn leading_digits(text: &[u8]) -> usize
    ensures count { result ≡ prefix_len is_ascii_digit text.now }
    ensures within { result ≤ length text.now }
{
    text.iter().take_while(|byte| is_digit(**byte)).count()
}

// The function or the cell that letters, and digits behind them, name.
fn name_of(letters: &[u8], digits: &[u8]) -> Option<Token>
    ensures { result ≡ name_of letters.now digits.now }
{
    if digits.is_empty() {
        return function_of(letters);
    }
    let position = position_of(letters, digits)?;
    Some(Token::Cell(position))
}

// The function that letters name.
fn function_of(letters: &[u8]) -> Option<Token>
    ensures { result ≡ function_of letters.now }
{
    if is_named(letters, b"SUM") {
        Some(Token::Function(Function::Sum))
    } else if is_named(letters, b"MIN") {
        Some(Token::Function(Function::Min))
    } else if is_named(letters, b"MAX") {
        Some(Token::Function(Function::Max))
    } else if is_named(letters, b"COUNT") {
        Some(Token::Function(Function::Count))
    } else if is_named(letters, b"IF") {
        Some(Token::If)
    } else {
        None
    }
}

// Whether the letters are those of the name, in whichever case.
fn is_named(letters: &[u8], name: &[u8]) -> bool
    ensures { result ≡ is_named letters.now name.now }
{
    letters.eq_ignore_ascii_case(name)
}

// The sign that two characters begin with, and how many of them it takes.
fn sign_of(first: u8, second: u8) -> Option<(Token, usize)>
    ensures sign { result ≡ sign_of first second }
    ensures some { IfSome result (λ found. 0 < found.1) }
    ensures few { IfSome result (λ found. found.1 ≤ (if second == 0 then 1 else 2)) }
{
    match first {
        b'<' | b'=' | b'>' => Some(compared_of(first, second)),
        b'+' => Some((Token::Sign(Operator::Add), 1)),
        b'-' => Some((Token::Sign(Operator::Subtract), 1)),
        b'*' => Some((Token::Sign(Operator::Multiply), 1)),
        b'/' => Some((Token::Sign(Operator::Divide), 1)),
        b'(' => Some((Token::Open, 1)),
        b')' => Some((Token::Close, 1)),
        b',' => Some((Token::Comma, 1)),
        b':' => Some((Token::Colon, 1)),
        _ => None,
    }
}

// A sign that compares, and how many characters it takes.
fn compared_of(first: u8, second: u8) -> (Token, usize)
    ensures sign { result ≡ compared_of first second }
    ensures some { 0 < result.1 }
    ensures few { result.1 ≤ (if second == 0 then 1 else 2) }
{
    match (first, second) {
        (b'=', _) => (Token::Compare(Comparison::Equal), 1),
        (b'<', b'=') => (Token::Compare(Comparison::AtMost), 2),
        (b'<', b'>') => (Token::Compare(Comparison::NotEqual), 2),
        (b'<', _) => (Token::Compare(Comparison::Less), 1),
        (_, b'=') => (Token::Compare(Comparison::AtLeast), 2),
        _ => (Token::Compare(Comparison::Greater), 1),
    }
}
