//! Texts in quotes.
ghost use Rattle.std.specs.Prelude.{◌≡◌};
ghost use Rattle.sheet_formula.specs.Tokens.{quoted};
ghost use Rattle.sheet_formula.specs.Tokenizing.{FindsOrStops};

use crate::stop::Stop;
use formula_base::Name;
use std::alloc::Global;

/// What stands in quotes, behind the opening quote, and how many bytes it takes with the closing
/// quote. A quote that is written twice is one of the text.
pub fn quoted(alloc: Global, text: &str) -> Result<(Name, usize), Stop>
    ensures { FindsOrStops (quoted text.now) text.now result }
{
    let mut words = String::new(alloc);
    let mut rest = text;
    while let Some((piece, behind)) = rest.split_once('"') {
        words.push_str(piece)?;
        match behind.strip_prefix('"') {
            Some(more) => {
                words.push('"')?;
                rest = more;
            }
            None => return Ok((Name::of(words), text.len() - behind.len())),
        }
    }
    Err(Stop::NoFormula)
}
