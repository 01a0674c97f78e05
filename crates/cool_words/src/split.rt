//! Words between blanks.
ghost use Rattle.std.specs.Prelude.{◌≡◌, IfOk, map};
ghost use Rattle.cool_words.specs.Words.{words, is_filled};

use cool_base::Memory;
use std::alloc::{AllocError, Global};

/// The words of the text in their order: what stands between its blanks.
pub fn words<'a>(alloc: Global, text: &'a str) -> Result<Vec<&'a str>, Memory>
    ensures { IfOk result (λ found. map (λ word. word.now) found.items ≡ words text.now) }
{
    Ok(filled_parts(alloc, text)?)
}

fn filled_parts<'a>(alloc: Global, text: &'a str) -> Result<Vec<&'a str>, AllocError>
    ensures { IfOk result (λ found. map (λ word. word.now) found.items ≡ words text.now) }
{
    text.split(' ')
        .filter(|part| is_filled(part))
        .collect(alloc)
}

fn is_filled(part: &str) -> bool
    ensures { result ≡ is_filled part.now }
{
    !part.is_empty()
}
