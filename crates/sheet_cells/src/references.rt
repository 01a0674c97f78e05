//! Names of cells: one or two letters for the column, and digits for the row.
ghost use Rattle.std.specs.Prelude.{◌≡◌, ◌≤◌, length};
ghost use Rattle.std.specs.List.{list_all, prefix_len};
ghost use Rattle.sheet_cells.specs.References.{is_name_letter, letter_number, column_number, column_of, row_of, cell_of, reference};

use crate::limits::{COLUMNS, ROWS};
use cool_base::read_number;

/// The row and the column, counted from 0, of the cell that the text names, as `a1` or `IV4096`.
/// None exactly where the text is no such name.
pub fn read_ref(text: &str) -> Option<(u32, u32)>
    ensures { result ≡ reference text.now }
{
    let bytes = text.as_bytes();
    let letters = leading_letters(bytes);
    position_of(&bytes[..letters], &bytes[letters..])
}

/// The row and the column, counted from 0, that digits and letters name; None exactly where they
/// name no cell.
pub fn position_of(letters: &[u8], digits: &[u8]) -> Option<(u32, u32)>
    ensures { result ≡ cell_of letters.now digits.now }
{
    let row = row(digits)?;
    let column = column(letters)?;
    Some((row, column))
}

/// Whether the byte is a letter, A to Z or a to z.
pub fn is_name_letter(byte: u8) -> bool
    ensures { result ≡ is_name_letter byte }
{
    (65 <= byte && byte <= 90) || (97 <= byte && byte <= 122)
}

/// How many letters the text begins with.
pub fn leading_letters(text: &[u8]) -> usize
    ensures count { result ≡ prefix_len is_name_letter text.now }
    ensures within { result ≤ length text.now }
{
    text.iter()
        .take_while(|byte| is_name_letter(**byte))
        .count()
}

// Whether each byte is a letter.
fn are_letters(letters: &[u8]) -> bool
    ensures { result ≡ list_all is_name_letter letters.now }
{
    letters.iter().all(|letter| is_name_letter(*letter))
}

// The row that the digits name.
fn row(digits: &[u8]) -> Option<u32>
    ensures { result ≡ row_of digits.now }
{
    if digits.is_empty() || digits[0] < b'1' {
        return None;
    }
    let number = read_number(digits, 4, u64::from(ROWS))?;
    Some((number as u32).saturating_sub(1))
}

// The column that the letters name.
fn column(letters: &[u8]) -> Option<u32>
    ensures { result ≡ column_of letters.now }
{
    if letters.is_empty() || letters.len() > 2 || !are_letters(letters) {
        return None;
    }
    let number = column_number(letters);
    if number <= COLUMNS {
        Some(number.saturating_sub(1))
    } else {
        None
    }
}

// The number of a column of at most two letters.
fn column_number(letters: &[u8]) -> u32
    requires { length letters.now ≤ 2 }
    ensures { result ≡ column_number letters.now }
{
    let mut number: u32 = 0;
    for letter in letters {
        number = 26 * number + letter_number(*letter);
    }
    number
}

// A letter's place in the alphabet, from 1.
fn letter_number(letter: u8) -> u32
    ensures number { result ≡ letter_number letter }
    ensures small { result ≤ 159 }
{
    if letter >= 97 {
        u32::from(letter) - 96
    } else {
        u32::from(letter).saturating_sub(64)
    }
}
