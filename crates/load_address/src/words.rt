//! The query of an address, as it is written.
ghost use Rattle.std.specs.Prelude.{◌≡◌, ◌==◌, codes, map, IfOk, Ok, None};
ghost use Rattle.std.specs.List.{slice_split};
ghost use Rattle.std.specs.Option.{option_copied, option_map};
ghost use Rattle.cool_words.specs.Words.{cut_at};
ghost use Rattle.load_address.specs.Addresses.{front_of, query_of, token_text};
ghost use Rattle.load_address.specs.Addresses.{written_token, token_in};

use cool_base::{Memory, Token};
use cool_words::first_value;
use std::alloc::{AllocError, Global};

fn cut_at_fragment(text: &str) -> Option<(&str, &str)>
    ensures { option_map (λ sides. (sides.0.now, sides.1.now)) result ≡ cut_at 35 text.now }
{
    text.split_once('#')
}

fn cut_at_query(text: &str) -> Option<(&str, &str)>
    ensures { option_map (λ sides. (sides.0.now, sides.1.now)) result ≡ cut_at 63 text.now }
{
    text.split_once('?')
}

// The text up to its first `#`.
fn without_fragment(text: &str) -> &str
    ensures { result.now ≡ front_of (cut_at 35 text.now) text.now }
{
    match cut_at_fragment(text) {
        Some((front, _)) => front,
        None => text,
    }
}

fn query(text: &str) -> Option<&str>
    ensures { option_copied result ≡ query_of text.now }
{
    let (_, query) = cut_at_query(without_fragment(text))?;
    Some(query)
}

// The words of a query, cut at each `&`.
fn query_words<'a>(alloc: Global, query: &'a str) -> Result<Vec<&'a str>, AllocError>
    ensures { IfOk result
        (λ words. map (λ word. word.now) words.items ≡ slice_split (λ b. b == 38) query.now) }
{
    query.split('&').collect(alloc)
}

fn token_text<'a>(alloc: Global, query: &'a str) -> Result<Option<&'a str>, Memory>
    ensures { IfOk result (λ text. option_copied text ≡ token_text query.now) }
{
    let words = query_words(alloc, query)?;
    Ok(first_value(words.as_slice(), "access_token"))
}

fn written_token<'a>(alloc: Global, text: &'a str) -> Result<Option<&'a str>, Memory>
    ensures { IfOk result (λ found. option_copied found ≡ written_token text.now) }
{
    match query(text) {
        Some(query) => token_text(alloc, query),
        None => Ok(None),
    }
}

// The token that the text's query gives; None where it gives none.
pub(crate) fn token_in(alloc: Global, text: &str) -> Result<Option<Token>, Memory>
    ensures { IfOk result (λ token. token ≡ token_in text.now) }
{
    match written_token(alloc, text)? {
        Some(token) => Token::read(alloc, token),
        None => Ok(None),
    }
}
