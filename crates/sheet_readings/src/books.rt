//! Cases of cells and of books: raw texts that are set, what an edit changes, and what cells show.
ghost use Rattle.std.specs.Prelude.{◌≡◌, OnOk, length};
ghost use Rattle.std.specs.Option.{IfSome};
ghost use Rattle.sheet_cells.specs.Cells.{IsCell};

use crate::desk::Desk;
use crate::spelling::{cell, number};
use sheet_calc::{Book, is_raw};
use sheet_cells::{COLUMNS, CellRef, Cells, MOST_PARTS, ROWS};
use std::alloc::Global;
use std::io::Print;

/// Four times `<part> <name> <raw>`, parted by bars: cells of sixteen parts are given the raw texts one after
/// the other, and what they have is printed in between.
pub fn texts(rt: &impl Print, alloc: Global, text: &str) -> anyhow::Result<()> {
    let (first, rest) = text.split_once('|').unwrap_or((text, ""));
    let (second, rest) = rest.split_once('|').unwrap_or((rest, ""));
    let (third, fourth) = rest.split_once('|').unwrap_or((rest, ""));
    let mut cells = Cells::new(alloc, MOST_PARTS)?;
    write_two(rt, &mut cells, first, second)?;
    write_two(rt, &mut cells, third, fourth)?;
    look(rt, &cells, first)?;
    look(rt, &cells, second)
}

// Gives two cells their raw texts, and prints then what the first of them has.
fn write_two(rt: &impl Print, cells: &mut Cells, first: &str, second: &str) -> anyhow::Result<()>
    requires { cells.old.parts ≡ MOST_PARTS }
    ensures { OnOk result (cells.new.parts ≡ MOST_PARTS) }
{
    write(rt, cells, first)?;
    write(rt, cells, second)?;
    look(rt, cells, first)
}

// The cell and the text behind it, where the cell is one of sixteen parts.
fn in_sixteen(text: &str) -> Option<(CellRef, &str)>
    ensures { IfSome result (λ pair. IsCell MOST_PARTS pair.0) }
{
    let (at, raw) = cell(text)?;
    if at.part >= MOST_PARTS || at.row >= ROWS || at.col >= COLUMNS {
        return None;
    }
    Some((at, raw))
}

// Gives the cell its raw text, where both are, and prints what it has then.
fn write(rt: &impl Print, cells: &mut Cells, text: &str) -> anyhow::Result<()>
    requires { cells.old.parts ≡ MOST_PARTS }
    ensures { OnOk result (cells.new.parts ≡ MOST_PARTS) }
{
    let Some((at, raw)) = in_sixteen(text) else {
        println!(rt; "  no cell")?;
        return Ok(());
    };
    if !is_raw(raw) {
        println!(rt; "  no raw text")?;
        return Ok(());
    }
    cells.set(&at, raw)?;
    println!(rt; "  [{}]", cells.raw(&at))?;
    Ok(())
}

// Prints what the cell has.
fn look(rt: &impl Print, cells: &Cells, text: &str) -> anyhow::Result<()>
    requires { cells.now.parts ≡ MOST_PARTS }
{
    match in_sixteen(text) {
        Some((at, _)) => println!(rt; "  [{}]", cells.raw(&at))?,
        None => println!(rt; "  no cell")?,
    }
    Ok(())
}

/// The cell, where it is one of the book.
pub fn in_book(book: &Book, at: CellRef) -> Option<CellRef>
    ensures { IfSome result (λ at. IsCell (length book.now) at) }
{
    if at.part >= book.parts() || at.row >= ROWS || at.col >= COLUMNS {
        return None;
    }
    Some(at)
}

/// A new book of so many parts.
pub fn begin_book(
    rt: &impl Print,
    alloc: Global,
    desk: &mut Desk,
    text: &str,
) -> anyhow::Result<()> {
    let parts = number(text);
    if parts < 1 || parts > MOST_PARTS {
        println!(rt; "  no book")?;
        return Ok(());
    }
    desk.book = Book::new(alloc, parts)?;
    println!(rt;
        "  {} parts, {} bytes",
        desk.book.parts(),
        desk.book.text_len()
    )?;
    Ok(())
}

/// Gives a cell of the book a raw text, and prints the length that was foretold of the file, each cell that
/// shows another text, and the file's length.
pub fn set(rt: &impl Print, desk: &mut Desk, text: &str) -> anyhow::Result<()> {
    match cell(text) {
        Some((at, raw)) => edit(rt, &mut desk.book, at, raw),
        None => Ok(println!(rt; "  no cell")?),
    }
}

// Gives the cell the raw text, where both are, and prints what comes of it.
fn edit(rt: &impl Print, book: &mut Book, at: CellRef, raw: &str) -> anyhow::Result<()> {
    let Some(at) = in_book(book, at) else {
        println!(rt; "  no cell or no raw text")?;
        return Ok(());
    };
    if !is_raw(raw) {
        println!(rt; "  no cell or no raw text")?;
        return Ok(());
    }
    let foretold = book.text_len_with(&at, raw);
    let changed = book.set(&at, raw)?;
    for (row, col) in changed.positions.get() {
        let (row, col) = (*row, *col);
        shown(
            rt,
            book,
            CellRef {
                part: changed.part,
                row,
                col,
            },
        )?;
    }
    println!(rt; "  {foretold} {}", book.text_len())?;
    Ok(())
}

// Prints what a cell shows that changed.
fn shown(rt: &impl Print, book: &Book, at: CellRef) -> anyhow::Result<()> {
    let Some(at) = in_book(book, at) else {
        return Ok(());
    };
    println!(rt; "  {}/{},{} [{}]", at.part, at.row, at.col, book.shown(&at))?;
    Ok(())
}

/// What a cell of the book shows, and its raw text.
pub fn show(rt: &impl Print, desk: &Desk, text: &str) -> anyhow::Result<()> {
    match cell(text) {
        Some((at, _)) => both(rt, &desk.book, at),
        None => Ok(println!(rt; "  no cell")?),
    }
}

// Prints what the cell shows, and its raw text.
fn both(rt: &impl Print, book: &Book, at: CellRef) -> anyhow::Result<()> {
    let Some(at) = in_book(book, at) else {
        println!(rt; "  no cell")?;
        return Ok(());
    };
    println!(rt; "  [{}] [{}]", book.shown(&at), book.raw(&at))?;
    Ok(())
}

/// How many cells of its part have a formula that names the cell, and which.
pub fn readers(rt: &impl Print, desk: &Desk, text: &str) -> anyhow::Result<()> {
    match cell(text) {
        Some((at, _)) => read_by(rt, &desk.book, at),
        None => Ok(println!(rt; "  no cell")?),
    }
}

// Prints how many cells read the cell, and which.
fn read_by(rt: &impl Print, book: &Book, at: CellRef) -> anyhow::Result<()> {
    let Some(at) = in_book(book, at) else {
        println!(rt; "  no cell")?;
        return Ok(());
    };
    let readers = book.readers(&at)?;
    print!(rt; "  {}", readers.len())?;
    for (row, col) in readers.as_slice() {
        print!(rt; " {row},{col}")?;
    }
    Ok(println!(rt; "")?)
}
