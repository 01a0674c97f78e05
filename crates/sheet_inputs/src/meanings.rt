//! What an input means at a cursor.
ghost use Rattle.std.specs.Prelude.{◌≡◌, ◌<◌, ◌≤◌, List, [], length, false, string_bytes, IfOk, if◌then◌else◌};
ghost use Rattle.sheet_cells.specs.Cells.{IsCell};
ghost use Rattle.sheet_calc.specs.Books.{text_of};
ghost use Rattle.sheet_rules.specs.Typing.{meaning_of, key_meaning, code_meaning, char_meaning, mouse_meaning, row_start, row_end, cell_below, cell_above, cell_left, cell_right, without_last, is_inside};
ghost use Rattle.sheet_rules.specs.declared.cursors.Meaning.TheVariants.{Writes};
ghost use Rattle.kit_trait.specs.Keys.{key_with};

use cell_damage::{CELL_HEIGHT, CELL_WIDTH};
use cool_base::{Memory, TextOf};
use kit_trait::{KeyCode, What, typed};
use sheet_calc::Book;
use sheet_cells::{COLUMNS, CellRef, ROWS};
use sheet_rules::{Cursor, Meaning, PART_HEIGHT, PART_WIDTH};
use std::alloc::Global;

/// What the key or the button means at the cursor, in the part.
pub fn meaning_of(
    alloc: Global,
    book: &Book,
    cursor: &Cursor,
    part: u32,
    what: &What,
) -> Result<Meaning, Memory>
    requires { IsCell (length book.now) cursor.now.at }
    ensures { IfOk result (λ meaning. meaning ≡ meaning_of book.now cursor.now part what.now) }
{
    match what {
        What::Key { chr, code } => key_meaning(alloc, book, cursor, *chr, *code),
        What::Mouse {
            x,
            y,
            count: _,
            buttons: _,
            modifier: _,
        } => Ok(mouse_meaning(part, *x, *y)),
    }
}

fn mouse_meaning(part: u32, x: u32, y: u32) -> Meaning
    ensures { result ≡ mouse_meaning part x y }
{
    if x < PART_WIDTH && y < PART_HEIGHT {
        let row = y / CELL_HEIGHT;
        let col = x / CELL_WIDTH;
        Meaning::Goes(CellRef { part, row, col })
    } else {
        Meaning::Stays
    }
}

// A key is judged by its code first, and else by its char.
fn key_meaning(
    alloc: Global,
    book: &Book,
    cursor: &Cursor,
    chr: u32,
    code: u32,
) -> Result<Meaning, Memory>
    requires { IsCell (length book.now) cursor.now.at }
    ensures { IfOk result (λ meaning. meaning ≡ key_meaning book.now cursor.now chr (key_with code)) }
{
    match KeyCode::with(code) {
        Some(key) => code_meaning(alloc, book, cursor, key),
        None => char_meaning(alloc, book, cursor, chr),
    }
}

// What a key means that acts by its code.
fn code_meaning(
    alloc: Global,
    book: &Book,
    cursor: &Cursor,
    key: KeyCode,
) -> Result<Meaning, Memory>
    requires { IsCell (length book.now) cursor.now.at }
    ensures { IfOk result (λ meaning. meaning ≡ code_meaning book.now cursor.now key) }
{
    let at = cursor.at;
    match key {
        KeyCode::Down => Ok(Meaning::Goes(cell_below(at))),
        KeyCode::Up => Ok(Meaning::Goes(cell_above(at))),
        KeyCode::Left => Ok(Meaning::Goes(cell_left(at))),
        KeyCode::Right => Ok(Meaning::Goes(cell_right(at))),
        KeyCode::Home => Ok(Meaning::Goes(row_start(at))),
        KeyCode::End => Ok(Meaning::Goes(row_end(book, at))),
        KeyCode::Return => Ok(Meaning::Goes(cell_below(at))),
        KeyCode::Tab => Ok(Meaning::Goes(cell_right(at))),
        KeyCode::Backspace => backspace(alloc, book.raw(&at)),
        KeyCode::Delete => Ok(Meaning::Writes {
            raw: TextOf::of(String::new(alloc)),
            fresh: true,
        }),
    }
}

// BACKSPACE over a text.
fn backspace(alloc: Global, text: &str) -> Result<Meaning, Memory>
    ensures { IfOk result (λ meaning. meaning ≡ Writes (without_last text.now) false) }
{
    let raw = without_last(alloc, text)?;
    Ok(Meaning::Writes { raw, fresh: false })
}

fn cell_below(at: CellRef) -> CellRef
    requires { at.row < ROWS }
    ensures { result ≡ cell_below at }
{
    let row = (at.row + 1).min(ROWS - 1);
    CellRef { row, ..at }
}

fn cell_above(at: CellRef) -> CellRef
    ensures { result ≡ cell_above at }
{
    let row = at.row.saturating_sub(1);
    CellRef { row, ..at }
}

fn cell_left(at: CellRef) -> CellRef
    ensures { result ≡ cell_left at }
{
    let col = at.col.saturating_sub(1);
    CellRef { col, ..at }
}

fn cell_right(at: CellRef) -> CellRef
    requires { at.col < COLUMNS }
    ensures { result ≡ cell_right at }
{
    let col = (at.col + 1).min(COLUMNS - 1);
    CellRef { col, ..at }
}

fn row_start(at: CellRef) -> CellRef
    ensures { result ≡ row_start at }
{
    CellRef { col: 0, ..at }
}

// The last cell of the row that has a raw text, or the one in column A.
fn row_end(book: &Book, at: CellRef) -> CellRef
    requires { IsCell (length book.now) at }
    ensures { result ≡ row_end book.now at }
{
    let mut last = 0;
    for col in 0..COLUMNS {
        let cell = CellRef { col, ..at };
        if !book.raw(&cell).is_empty() {
            last = col;
        }
    }
    CellRef { col: last, ..at }
}

// The text without its last character.
fn without_last(alloc: Global, text: &str) -> Result<TextOf, Memory>
    ensures { IfOk result (λ shorter. shorter ≡ without_last text.now) }
{
    let mut shorter = String::from_str(alloc, text)?;
    let _ = shorter.pop();
    Ok(TextOf::of(shorter))
}

// The char is typed at the cursor.
fn char_meaning(alloc: Global, book: &Book, cursor: &Cursor, chr: u32) -> Result<Meaning, Memory>
    requires { IsCell (length book.now) cursor.now.at }
    ensures { IfOk result (λ meaning. meaning ≡ char_meaning book.now cursor.now chr) }
{
    let Some(character) = typed(chr) else {
        return Ok(Meaning::Stays);
    };
    let mut text = if cursor.fresh {
        String::new(alloc)
    } else {
        String::from_str(alloc, book.raw(&cursor.at))?
    };
    text.push(character)?;
    let raw = TextOf::of(text);
    Ok(Meaning::Writes { raw, fresh: false })
}
