// The text for words that were refused.
use crate::commands::host_matches;
use crate::serves::serve_matches;
use clap::error::ErrorKind;
use clap::{ArgMatches, Error};
use cool_base::Memory;
use std::alloc::Global;

// The parser's text.
fn text_of(alloc: Global, error: &Error) -> Result<String, Memory> {
    if error.kind() == ErrorKind::OutOfMemory {
        return Err(Memory);
    }
    Ok(error.to_string(alloc)?)
}

// What the parser of the command that the first word names makes of the words.
fn matches_of<'a>(alloc: Global, words: &'a [String]) -> Result<ArgMatches<'a>, Error> {
    match words {
        [first, ..] if first.as_str() == "serve" => serve_matches(alloc, words),
        _ => host_matches(alloc, words),
    }
}

/// The text for words that were refused: the parser's own, or else that a number is out of bounds.
pub fn refusal_text(alloc: Global, words: &[String]) -> Result<String, Memory> {
    match matches_of(alloc, words) {
        Ok(_matches) => Ok(String::from_str(alloc, "number out of bounds\n")?),
        Err(error) => text_of(alloc, &error),
    }
}
