//! Which raw texts a cell may have.
ghost use Rattle.std.specs.Prelude.{◌≡◌};
ghost use Rattle.std.specs.List.{list_all};
ghost use Rattle.sheet_cells.specs.Cells.{is_raw, is_raw_byte};

use sheet_cells::RAW_LIMIT;

/// Whether a cell may have this raw text: empty, or up to 1,024 bytes without a character below 32 and
/// without 127.
pub fn is_raw(raw: &str) -> bool
    ensures { result ≡ is_raw raw.now }
{
    raw.len() <= RAW_LIMIT && are_raw_bytes(raw.as_bytes())
}

// Whether no byte stands for a control character.
fn are_raw_bytes(bytes: &[u8]) -> bool
    ensures { result ≡ list_all is_raw_byte bytes.now }
{
    bytes.iter().all(|byte| *byte >= 32 && *byte != 127)
}
