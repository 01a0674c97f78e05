//! `read_book`: the book that the bytes of a file say.
ghost use Rattle.std.specs.Prelude.{◌≡◌, ◌≢◌, ◌<◌, ◌≤◌, false, Ok, Err, None, IfOk, IfErr, OnOk, length, map, option_map, codes, if◌then◌else◌};
ghost use Rattle.std.specs.Str.{bytes_eq};
ghost use Rattle.sheet_file.specs.declared.fault.BookFault.TheVariants.{NoHeader, Memory};
ghost use Rattle.std.specs.Option.{IfSome};
ghost use Rattle.sheet_cells.specs.Cells.{IsCell, IsRaw};
ghost use Rattle.sheet_file.specs.Lines.{lines_of, cell_said, first_said};
ghost use Rattle.sheet_file.specs.BookFile.{comes_after, with_lines, parts_read, header_fault, lines_read, book_of};
ghost use Rattle.sheet_file.specs.BookFile.{is_early};

use crate::fault::BookFault;
use crate::lines::{cell_of_text, parts_of_text};
use cool_words::split_once;
use sheet_calc::{Book, BookDraft, FILE_LIMIT};
use sheet_cells::CellRef;
use std::alloc::Global;

/// The book that the bytes of a file say, or the first fault: in time linear in the file's length but
/// for a logarithm, and that of computing its values once. `Memory` may come in place of a book, and of a
/// fault of a line behind the first two: those two and the size are judged before memory is taken.
#[tactic(auto, unfolding(crate::specs::BookFile::book_of))]
pub fn read_book(alloc: Global, file: &[u8]) -> Result<Book, BookFault>
    ensures ok { IfOk result (λ book. book_of file.now ≡ Ok book) }
    ensures refused { IfErr result (λ fault. fault ≢ Memory → book_of file.now ≡ Err fault) }
    ensures early { IfErr result (λ fault. fault ≡ Memory → is_early (book_of file.now) ≡ false) }
{
    if file.len() > FILE_LIMIT {
        return Err(BookFault::TooLarge);
    }
    Ok(read_draft(alloc, file)?.finish()?)
}

// The parts that the bytes of a file say.
fn read_draft(alloc: Global, file: &[u8]) -> Result<BookDraft, BookFault>
    requires { length file.now ≤ FILE_LIMIT }
    ensures ok { IfOk result (λ draft. lines_read (lines_of file.now) ≡ Ok draft) }
    ensures refused { IfErr result (λ fault. fault ≢ Memory → lines_read (lines_of file.now) ≡ Err fault) }
    ensures early { IfErr result (λ fault. fault ≡ Memory → is_early (lines_read (lines_of file.now)) ≡ false) }
{
    if file.is_empty() {
        return Ok(BookDraft::new(alloc, 1)?);
    }
    match split_once(file, b'\n') {
        Some((line, behind)) => behind_header(alloc, line, behind),
        None => Err(cut_off(file)),
    }
}

// The parts that the lines behind a first line say.
fn behind_header(alloc: Global, first: &[u8], lines: &[u8]) -> Result<BookDraft, BookFault>
    requires { length lines.now ≤ FILE_LIMIT }
    ensures ok { IfOk result (λ draft. (if bytes_eq first.now (codes "coolsheet 1") then parts_read (lines_of lines.now) else Err NoHeader) ≡ Ok draft) }
    ensures refused { IfErr result (λ fault. fault ≢ Memory → (if bytes_eq first.now (codes "coolsheet 1") then parts_read (lines_of lines.now) else Err NoHeader) ≡ Err fault) }
    ensures early { IfErr result (λ fault. fault ≡ Memory → is_early (if bytes_eq first.now (codes "coolsheet 1") then parts_read (lines_of lines.now) else Err NoHeader) ≡ false) }
{
    if first == b"coolsheet 1".as_slice() {
        read_parts(alloc, lines)
    } else {
        Err(BookFault::NoHeader)
    }
}

// What is wrong with a first line that has no newline.
fn cut_off(first: &[u8]) -> BookFault
    ensures fault { result ≡ header_fault first.now }
    ensures memory { result ≢ Memory }
{
    if first == b"coolsheet 1".as_slice() {
        BookFault::BadLine(1)
    } else {
        BookFault::NoHeader
    }
}

// The parts that the lines behind the first say.
fn read_parts(alloc: Global, lines: &[u8]) -> Result<BookDraft, BookFault>
    requires { length lines.now ≤ FILE_LIMIT }
    ensures ok { IfOk result (λ draft. parts_read (lines_of lines.now) ≡ Ok draft) }
    ensures refused { IfErr result (λ fault. fault ≢ Memory → parts_read (lines_of lines.now) ≡ Err fault) }
    ensures early { IfErr result (λ fault. fault ≡ Memory → is_early (parts_read (lines_of lines.now)) ≡ false) }
{
    let Some((text, behind)) = split_once(lines, b'\n') else {
        return Err(BookFault::BadLine(2));
    };
    let Some(parts) = parts_of_text(text) else {
        return Err(BookFault::BadLine(2));
    };
    let mut draft = BookDraft::new(alloc, parts)?;
    match read_cells(parts, &mut draft, behind) {
        Ok(()) => Ok(draft),
        Err(fault) => Err(fault),
    }
}

// Gives the draft, which has so many parts, the cells that the lines behind the first two say.
fn read_cells(parts: u32, draft: &mut BookDraft, lines: &[u8]) -> Result<(), BookFault>
    requires parts { length draft.old ≡ parts }
    requires some { 1 ≤ parts }
    requires short { length lines.now ≤ FILE_LIMIT }
    ensures ok { OnOk result (with_lines draft.old 3 None (map (cell_said parts) (lines_of lines.now)) ≡ Ok draft.new) }
    ensures refused { IfErr result (λ fault. fault ≢ Memory → with_lines draft.old 3 None (map (cell_said parts) (lines_of lines.now)) ≡ Err fault) }
{
    let mut rest = lines;
    let mut number: u32 = 3;
    let mut before = None;
    while !rest.is_empty() {
        let Some((at, raw, behind)) = next_cell(parts, rest) else {
            return Err(BookFault::BadLine(number));
        };
        if !comes_after(before, at) {
            return Err(BookFault::OutOfOrder(number));
        }
        draft.add(&at, raw)?;
        before = Some(at);
        number += 1;
        rest = behind;
    }
    Ok(())
}

// The cell and the raw text that the first of some lines says, in a file of so many parts, and the lines
// behind it; None exactly where the first line isn't of its form.
fn next_cell<'a>(parts: u32, lines: &'a [u8]) -> Option<(CellRef, &'a str, &'a [u8])>
    requires { 1 ≤ parts }
    ensures said { option_map (λ found. ((found.0, found.1.now), lines_of found.2.now)) result ≡ first_said parts (lines_of lines.now) }
    ensures shorter { IfSome result (λ found. length found.2.now < length lines.now) }
    ensures cell { IfSome result (λ found. IsCell parts found.0) }
    ensures valid { IfSome result (λ found. IsRaw found.1.now) }
{
    let (text, behind) = split_once(lines, b'\n')?;
    let (at, raw) = cell_of_text(parts, text)?;
    Some((at, raw, behind))
}

// Whether the cell comes after the one on the line before it, if there is one.
fn comes_after(before: Option<CellRef>, at: CellRef) -> bool
    ensures { result ≡ comes_after before at }
{
    match before {
        None => true,
        Some(before) => before < at,
    }
}
