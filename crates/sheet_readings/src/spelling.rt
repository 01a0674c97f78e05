//! How numbers, cells and escaped texts are spelled in a case.
use cool_base::{Memory, read_u31};
use cool_words::percent_decoded;
use sheet_cells::{CellRef, read_ref};
use std::alloc::Global;

/// The number that the text is; a text that is none is a number beyond every bound.
pub fn number(text: &str) -> u32 {
    read_u31(text.as_bytes()).unwrap_or(u32::MAX)
}

/// The cell of `<part> <name>` at the front, and what stands behind a further blank.
pub fn cell(text: &str) -> Option<(CellRef, &str)> {
    let (part, rest) = text.split_once(' ')?;
    let (name, rest) = rest.split_once(' ').unwrap_or((rest, ""));
    let (row, col) = read_ref(name)?;
    let part = number(part);
    Some((CellRef { part, row, col }, rest))
}

/// The bytes that the text spells, in which `%` and two hexadecimal digits are a byte.
pub fn bytes(alloc: Global, text: &str) -> Result<Vec<u8>, Memory> {
    percent_decoded(alloc, text.as_bytes())
}
