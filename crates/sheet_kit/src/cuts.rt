//! The texts that an area's cells show.
ghost use Rattle.std.specs.Prelude.{◌≡◌, ◌+◌, ◌-◌, ◌<◌, ◌≤◌, ◌^◌, ◌++◌, length, IfOk, OnOk};
ghost use Rattle.tile_key.specs.Places.{IsArea};
ghost use Rattle.sheet_cells.specs.Cells.{IsCell};
ghost use Rattle.sheet_rules.specs.Cuts.{text_in, texts_in_row, texts_of, cells_met};

use cell_damage::{CELL_HEIGHT, CELL_WIDTH};
use cool_base::{Memory, TextOf};
use sheet_calc::Book;
use sheet_cells::{COLUMNS, CellRef, ROWS};
use sheet_rules::ShownText;
use std::alloc::Global;
use tile_key::Area;

/// The texts of exactly the cells that the area meets and that show one, by rows and then columns. The
/// time is that of looking these cells up.
#[tactic(auto, unfolding(sheet_rules::specs::Cuts::texts_of))]
pub(crate) fn texts_of(alloc: Global, book: &Book, area: &Area) -> Result<Vec<ShownText>, Memory>
    requires { area.now.part < length book.now }
    ensures texts { IfOk result (λ texts. texts.items ≡ texts_of book.now area.now) }
    ensures form { OnOk result (IsArea area.now) }
{
    let part = area.part();
    let row = area.posy() / CELL_HEIGHT;
    let col = area.posx() / CELL_WIDTH;
    let rows = cells_met(area.posy(), area.tileheight(), CELL_HEIGHT, ROWS);
    let cols = cells_met(area.posx(), area.tilewidth(), CELL_WIDTH, COLUMNS);
    let mut texts = Vec::new(alloc);
    for n in 0..rows {
        push_row(alloc, &mut texts, book, part, row + n, col, cols)?;
    }
    Ok(texts)
}

// How many of the first cells a side of an area meets.
fn cells_met(pos: u32, size: u32, unit: u32, limit: u32) -> u32
    requires some { 1 ≤ size }
    requires unit { 1 ≤ unit }
    requires end { pos + size < 2 ^ 32 }
    ensures { result ≡ cells_met pos size unit limit }
{
    let end = u64::from((pos + size - 1) / unit) + 1;
    (end.min(u64::from(limit)) as u32).saturating_sub(pos / unit)
}

// Adds the texts of so many cells of a row.
fn push_row(
    alloc: Global,
    texts: &mut Vec<ShownText>,
    book: &Book,
    part: u32,
    row: u32,
    col: u32,
    count: u32,
) -> Result<(), Memory>
    requires part { part < length book.now }
    requires row { row < ROWS }
    requires right { count ≤ COLUMNS - col }
    ensures { OnOk result (texts.new.items ≡ texts.old.items ++ texts_in_row book.now part row col count) }
{
    for n in 0..count {
        let at = CellRef {
            part,
            row,
            col: col + n,
        };
        push_text(alloc, texts, book, &at)?;
    }
    Ok(())
}

// Adds the cell's text, where it shows one.
#[tactic(auto, unfolding(sheet_rules::specs::Cuts::text_in))]
fn push_text(
    alloc: Global,
    texts: &mut Vec<ShownText>,
    book: &Book,
    at: &CellRef,
) -> Result<(), Memory>
    requires { IsCell (length book.now) at.now }
    ensures { OnOk result (texts.new.items ≡ texts.old.items ++ text_in book.now at.now) }
{
    let shown = book.shown(at);
    if shown.is_empty() {
        return Ok(());
    }
    let text = TextOf::of(String::from_str(alloc, shown)?);
    texts.push(ShownText {
        row: at.row,
        col: at.col,
        text,
    })?;
    Ok(())
}
