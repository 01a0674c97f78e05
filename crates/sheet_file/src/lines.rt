//! What one line of a book's file says.
ghost use Rattle.std.specs.Prelude.{◌≡◌, ◌==◌, ◌<◌, ◌≤◌, option_map, length, nat_lt, Some};
ghost use Rattle.std.specs.Option.{IfSome};
ghost use Rattle.std.specs.List.{list_all};
ghost use Rattle.sheet_cells.specs.Cells.{IsCell, IsRaw, is_raw, is_raw_byte};
ghost use Rattle.sheet_file.specs.Lines.{has_leading_zero, plain_number, some_parts, parts_in, parts_of_text, position_named, raw_written, cell_by, cell_of_text};

use cool_base::read_number;
use cool_words::split_once;
use sheet_calc::is_raw;
use sheet_cells::{CellRef, MOST_PARTS, read_ref};

/// How many parts the text of a line says that there are, from 1 to 16.
pub fn parts_of_text(text: &[u8]) -> Option<u32>
    ensures parts { result ≡ parts_of_text text.now }
    ensures some { IfSome result (λ parts. 1 ≤ parts) }
    ensures few { IfSome result (λ parts. parts ≤ MOST_PARTS) }
{
    let (word, rest) = split_once(text, b' ')?;
    if word != b"parts".as_slice() {
        return None;
    }
    some_parts(plain_number(rest, MOST_PARTS)?)
}

// A number of parts.
fn some_parts(count: u32) -> Option<u32>
    ensures { result ≡ some_parts count }
{
    if 1 <= count { Some(count) } else { None }
}

/// The cell and the raw text that the text of a line says, in a file of so many parts.
pub fn cell_of_text(parts: u32, text: &[u8]) -> Option<(CellRef, &str)>
    ensures { option_map (λ cell. (cell.0, cell.1.now)) result ≡ cell_of_text parts text.now }
{
    let (part, behind) = split_once(text, b' ')?;
    let (name, raw) = split_once(behind, b' ')?;
    let part = plain_number(part, parts.saturating_sub(1))?;
    let (row, col) = position_named(name)?;
    let raw = raw_written(raw)?;
    Some((CellRef { part, row, col }, raw))
}

// The number up to `limit`, of one or two digits, that the word writes without a leading zero.
fn plain_number(word: &[u8], limit: u32) -> Option<u32>
    ensures { result ≡ plain_number limit word.now }
{
    if has_leading_zero(word) {
        return None;
    }
    let number = read_number(word, 2, u64::from(limit))?;
    Some(number as u32)
}

// Whether digits begin with a zero that another one follows.
fn has_leading_zero(word: &[u8]) -> bool
    ensures { result ≡ has_leading_zero word.now }
{
    match word {
        [b'0', _, ..] => true,
        _ => false,
    }
}

// The position of the cell that the word names in capital letters.
fn position_named(word: &[u8]) -> Option<(u32, u32)>
    ensures { result ≡ position_named word.now }
{
    if !has_no_small_letter(word) {
        return None;
    }
    match std::str::from_utf8(word) {
        Ok(name) => read_ref(name),
        Err(_) => None,
    }
}

// Whether no byte stands behind the capital letters.
fn has_no_small_letter(word: &[u8]) -> bool
    ensures { result ≡ list_all (λ c. nat_lt c 97) word.now }
{
    word.iter().all(|byte| *byte < 97)
}

// The raw text that a line can have.
fn raw_written(raw: &[u8]) -> Option<&str>
    ensures { option_map (λ text. text.now) result ≡ raw_written raw.now }
{
    match std::str::from_utf8(raw) {
        Ok(text) => text_written(text),
        Err(_) => None,
    }
}

// The text, where a line can have it as a raw text.
fn text_written(text: &str) -> Option<&str>
    ensures { option_map (λ raw. raw.now) result ≡ raw_written text.now }
{
    if !text.is_empty() && is_raw(text) {
        Some(text)
    } else {
        None
    }
}
