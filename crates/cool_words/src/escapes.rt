//! Percent escapes.
ghost use Rattle.std.specs.Prelude.{◌≡◌, IfOk};
ghost use Rattle.percent_encoding.specs.Percent.{percent_decode};

use cool_base::Memory;
use percent_encoding::percent_decode;
use std::alloc::Global;

/// The text with each escape, `%` and two hexadecimal digits, replaced by the byte that it stands for;
/// any other `%` stays.
pub fn percent_decoded(alloc: Global, text: &[u8]) -> Result<Vec<u8>, Memory>
    ensures { IfOk result (λ bytes. bytes.items ≡ percent_decode text.now) }
{
    let mut bytes = Vec::new(alloc);
    percent_decode(text).append_to(&mut bytes)?;
    Ok(bytes)
}
