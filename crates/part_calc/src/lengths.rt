//! How long the lines of a part are in the text of a file.
ghost use Rattle.std.specs.Prelude.{◌≡◌, ◌+◌, ◌^◌, ◌<◌, ◌≤◌, length, nat_lt, if◌then◌else◌};
ghost use Rattle.std.specs.Fmt.{decimal};
ghost use Rattle.sheet_cells.specs.Cells.{IsRaw};
ghost use Rattle.part_calc.specs.Kept.{IsPart};
ghost use Rattle.part_calc.specs.Parts.{text_at, with_text};
ghost use Rattle.part_calc.specs.Text.{cell_line, line_at, part_lines};

use crate::contents::Cell;
use std::collections::BTreeMap;

/// How many bytes the lines of these cells have, as those of part 0.
pub fn lines_len(cells: &BTreeMap<(u32, u32), Cell>) -> u64
    requires { length (part_lines 0 cells.now.entries) < 2 ^ 31 }
    ensures { result ≡ length (part_lines 0 cells.now.entries) }
{
    let mut total: u64 = 0;
    for (position, cell) in cells {
        total += line_len(0, *position, cell.raw());
    }
    total
}

/// How many bytes the lines of these cells have, as those of part 0, once the cell at a position has
/// this raw text; now they have `kept`.
pub fn edited_len(cells: &BTreeMap<(u32, u32), Cell>, kept: u64, at: (u32, u32), raw: &str) -> u64
    requires part { IsPart cells.now.entries }
    requires kept { kept ≡ length (part_lines 0 cells.now.entries) }
    requires valid { IsRaw raw.now }
    ensures { result ≡ length (part_lines 0 (with_text cells.now.entries at raw.now)) }
{
    let old = line_len_at(0, at, raw_at(cells, at));
    let new = line_len_at(0, at, raw);
    kept + new - old
}

/// The raw text of the cell at a position, empty where it has none.
#[tactic(auto, unfolding(crate::specs::Parts::text_at))]
pub fn raw_at<'a>(cells: &'a BTreeMap<(u32, u32), Cell>, at: (u32, u32)) -> &'a str
    ensures { result.now ≡ text_at cells.now.entries at }
{
    match cells.get(&at) {
        Some(cell) => cell.raw(),
        None => "",
    }
}

/// How many bytes the line of a cell with this raw text has, as one of the part of this number: none
/// where the text is empty.
pub fn line_len_at(number: u32, position: (u32, u32), raw: &str) -> u64
    ensures length { result ≡ length (line_at number position raw.now) }
    ensures small { result ≤ length raw.now + 45 }
{
    if raw.is_empty() {
        0
    } else {
        line_len(number, position, raw)
    }
}

// How many bytes a cell's line has.
fn line_len(number: u32, position: (u32, u32), raw: &str) -> u64
    ensures length { result ≡ length (cell_line number (position, raw.now)) }
    ensures small { result ≤ length raw.now + 45 }
{
    let part = digits(u64::from(number));
    let column = letters(position.1);
    let row = digits(u64::from(position.0) + 1);
    part + column + row + raw.len() as u64 + 3
}

// How many letters name the column.
fn letters(column: u32) -> u64
    ensures letters { result ≡ (if nat_lt column 26 then 1 else 2) }
    ensures few { result ≤ 2 }
{
    if column < 26 { 1 } else { 2 }
}

/// How many decimal digits the number has.
#[tactic(auto, using(crate::proofs::LengthLaws::one_digit, crate::proofs::LengthLaws::more_digits))]
pub fn digits(number: u64) -> u64
    ensures length { result ≡ length (decimal number) }
    ensures few { result ≤ 20 }
{
    if number < 10 {
        1
    } else {
        digits(number / 10) + 1
    }
}
