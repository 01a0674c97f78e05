//! A text as words and signs.
ghost use Rattle.std.specs.Prelude.{◌≡◌, ◌<◌, ◌≤◌, length, drop};
ghost use Rattle.sheet_formula.specs.Tokens.{token_at, tokens_of};
ghost use Rattle.sheet_formula.specs.Tokenizing.{Makes, FindsOrStops};

use crate::bare::bare_at;
use crate::quotes::quoted;
use crate::stop::Stop;
use crate::tokens::Token;
use std::alloc::Global;
use std::collections::VecDeque;

/// The words and signs of the text, in order, without the blanks between them.
pub fn tokenize(alloc: Global, text: &str) -> Result<VecDeque<Token>, Stop>
    ensures { Makes (λ tokens. tokens.items) (tokens_of text.now) result }
{
    let bytes = text.as_bytes();
    let mut tokens = VecDeque::new(alloc);
    let mut at = 0;
    while at < bytes.len() {
        if bytes[at] == b' ' {
            at += 1;
        } else {
            let (token, len) = token_at(alloc, text, at)?;
            tokens.push_back(token)?;
            at += len;
        }
    }
    Ok(tokens)
}

// The word or sign that begins at a place, and how many bytes it takes.
#[tactic(auto, unfolding(crate::specs::Tokens::token_at))]
fn token_at(alloc: Global, text: &str, at: usize) -> Result<(Token, usize), Stop>
    requires { at < length text.now }
    ensures { FindsOrStops (token_at (drop at text.now)) (drop at text.now) result }
{
    if text.as_bytes()[at] == b'"' {
        let (words, len) = quoted(alloc, &text[at + 1..])?;
        return Ok((Token::Words(words), len + 1));
    }
    match bare_at(&text.as_bytes()[at..]) {
        Some(found) => Ok(found),
        None => Err(Stop::NoFormula),
    }
}
