//! Cases of files: what the bytes of a file say, and what is written of a book.
use crate::desk::Desk;
use crate::spelling::{bytes, cell, number};
use cool_base::Memory;
use sheet_calc::{BookDraft, FILE_LIMIT, is_raw};
use sheet_cells::{COLUMNS, CellRef, MOST_PARTS, ROWS};
use sheet_file::{read_book, write_book};
use std::alloc::Global;
use std::io::{self, Print, Write};

/// The file of the book.
pub fn written(rt: &impl Print, alloc: Global, desk: &Desk) -> anyhow::Result<()> {
    if desk.book.text_len() > FILE_LIMIT as u64 {
        println!(rt; "  too long")?;
        return Ok(());
    }
    let file = write_book(alloc, &desk.book)?;
    println!(rt; "  {} bytes", file.len())?;
    io::writer(rt).write_all(&file)?;
    Ok(())
}

/// A draft of `<parts>`, and then of `|<part> <name> <raw>` for each cell that is added: it becomes the book.
pub fn draft(rt: &impl Print, alloc: Global, desk: &mut Desk, text: &str) -> anyhow::Result<()> {
    let (parts, mut rest) = text.split_once('|').unwrap_or((text, ""));
    let parts = number(parts);
    if parts < 1 || parts > MOST_PARTS {
        println!(rt; "  no draft")?;
        return Ok(());
    }
    let mut draft = BookDraft::new(alloc, parts)?;
    for _ in 0..64 {
        let (one, behind) = rest.split_once('|').unwrap_or((rest, ""));
        rest = behind;
        if let Some((at, raw)) = cell(one) {
            add(&mut draft, at, raw)?;
        }
    }
    desk.book = draft.finish()?;
    written(rt, alloc, desk)
}

// Gives the cell of the draft the raw text, where both are.
fn add(draft: &mut BookDraft, at: CellRef, raw: &str) -> Result<(), Memory> {
    if at.part >= draft.parts() || at.row >= ROWS || at.col >= COLUMNS {
        return Ok(());
    }
    if !is_raw(raw) {
        return Ok(());
    }
    draft.add(&at, raw)
}

/// What the file of these bytes says; where it says a book, that is the book, and its file is written.
pub fn file(rt: &impl Print, alloc: Global, desk: &mut Desk, text: &str) -> anyhow::Result<()> {
    read(rt, alloc, desk, &bytes(alloc, text)?)
}

/// The same for a file with one cell that has so many bytes.
pub fn sized(rt: &impl Print, alloc: Global, desk: &mut Desk, text: &str) -> anyhow::Result<()> {
    let mut file = Vec::from_slice(alloc, b"coolsheet 1\nparts 1\n0 A1 ".as_slice())?;
    for _ in 0..number(text).min(3_000_000) {
        file.push(b'x')?;
    }
    file.push(b'\n')?;
    println!(rt; "  of {} bytes", file.len())?;
    match read_book(alloc, &file) {
        Ok(book) => desk.book = book,
        Err(fault) => println!(rt; "  {fault:?}")?,
    }
    Ok(())
}

// What the bytes say.
fn read(rt: &impl Print, alloc: Global, desk: &mut Desk, file: &[u8]) -> anyhow::Result<()> {
    match read_book(alloc, file) {
        Ok(book) => desk.book = book,
        Err(fault) => {
            println!(rt; "  {fault:?}")?;
            return Ok(());
        }
    }
    println!(rt; "  {} parts", desk.book.parts())?;
    written(rt, alloc, desk)
}
