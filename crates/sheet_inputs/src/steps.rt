//! What an input leaves, and what it damages.
ghost use Rattle.std.specs.Prelude.{◌≡◌, ◌<◌, ◌≤◌, [], true, length, IsTrue, OnOk, IfOk, OnErr};
ghost use Rattle.std.specs.Bool.{OnTrue};
ghost use Rattle.std.specs.List.{list_all};
ghost use Rattle.std.specs.Ordering.{nat_cmp};
ghost use Rattle.std.specs.BTreeMap.{insert_entry};
ghost use Rattle.sheet_cells.specs.Cells.{IsCell, IsRaw, is_raw_byte};
ghost use Rattle.sheet_calc.specs.Books.{with_cell};
ghost use Rattle.sheet_rules.specs.Typing.{fits, written, carried_out, writes_raw};
ghost use Rattle.sheet_rules.specs.Damage.{damage_between};

use crate::cursors::{reseat, seat, unseat};
use cell_damage::{MOST_RECTANGLES, damage_of};
use cool_base::Memory;
use kit_trait::Damage;
use sheet_calc::{Book, FILE_LIMIT};
use sheet_cells::{CellRef, RAW_LIMIT};
use sheet_rules::{Cursor, Meaning};
use std::alloc::Global;
use std::collections::BTreeMap;

/// Takes what the view's input means at the cell where its cursor stands, and tells what it damaged in
/// the cell's part. After `Memory` nothing has changed.
pub fn carry_out(
    alloc: Global,
    book: &mut Book,
    cursors: &mut BTreeMap<u32, Cursor>,
    view: u32,
    at: CellRef,
    meaning: &Meaning,
) -> Result<Vec<Damage>, Memory>
    requires cell { IsCell (length book.old) at }
    requires raw { IsTrue (writes_raw meaning.now) }
    ensures contents { OnOk result (record { parts = book.new; cursors = cursors.new.entries } ≡ carried_out (record { parts = book.old; cursors = cursors.old.entries }) view at meaning.now) }
    ensures damage { IfOk result (λ damage. damage.items ≡ damage_between book.old book.new at.part) }
    ensures book { OnErr result (book.new ≡ book.old) }
    ensures cursors { OnErr result (cursors.new.entries ≡ cursors.old.entries) }
{
    match meaning {
        Meaning::Stays => Ok(Vec::new(alloc)),
        Meaning::Goes(to) => go(alloc, cursors, view, *to),
        Meaning::Writes { raw, fresh } => {
            let cursor = Cursor { at, fresh: *fresh };
            write(alloc, book, cursors, view, cursor, raw.get())
        }
    }
}

// Moves the view's cursor, which damages nothing.
fn go(
    alloc: Global,
    cursors: &mut BTreeMap<u32, Cursor>,
    view: u32,
    at: CellRef,
) -> Result<Vec<Damage>, Memory>
    ensures cursors { OnOk result (cursors.new.entries ≡ insert_entry nat_cmp cursors.old.entries view (record { at = at; fresh = true })) }
    ensures none { IfOk result (λ damage. damage.items ≡ []) }
    ensures err { OnErr result (cursors.new.entries ≡ cursors.old.entries) }
{
    cursors.insert(view, Cursor { at, fresh: true })?;
    Ok(Vec::new(alloc))
}

// Gives the cell under the cursor the raw text, where it fits.
fn write(
    alloc: Global,
    book: &mut Book,
    cursors: &mut BTreeMap<u32, Cursor>,
    view: u32,
    cursor: Cursor,
    raw: &str,
) -> Result<Vec<Damage>, Memory>
    requires cell { IsCell (length book.old) cursor.at }
    requires raw { IsTrue (list_all is_raw_byte raw.now) }
    ensures contents { OnOk result (record { parts = book.new; cursors = cursors.new.entries } ≡ written (record { parts = book.old; cursors = cursors.old.entries }) view cursor raw.now) }
    ensures damage { IfOk result (λ damage. damage.items ≡ damage_between book.old book.new cursor.at.part) }
    ensures book { OnErr result (book.new ≡ book.old) }
    ensures cursors { OnErr result (cursors.new.entries ≡ cursors.old.entries) }
{
    if !fits(book, &cursor.at, raw) {
        return Ok(Vec::new(alloc));
    }
    put(alloc, book, cursors, view, cursor, raw)
}

// Gives the cell under the cursor the raw text.
fn put(
    alloc: Global,
    book: &mut Book,
    cursors: &mut BTreeMap<u32, Cursor>,
    view: u32,
    cursor: Cursor,
    raw: &str,
) -> Result<Vec<Damage>, Memory>
    requires cell { IsCell (length book.old) cursor.at }
    requires raw { IsRaw raw.now }
    ensures parts { OnOk result (book.new ≡ with_cell book.old cursor.at raw.now) }
    ensures seats { OnOk result (cursors.new.entries ≡ insert_entry nat_cmp cursors.old.entries view cursor) }
    ensures damage { IfOk result (λ damage. damage.items ≡ damage_between book.old book.new cursor.at.part) }
    ensures book { OnErr result (book.new ≡ book.old) }
    ensures cursors { OnErr result (cursors.new.entries ≡ cursors.old.entries) }
{
    let _before = book.parts();
    let damage = Vec::with_capacity(alloc, MOST_RECTANGLES)?;
    let new = seat(cursors, view, cursor)?;
    match book.set(&cursor.at, raw) {
        Ok(changed) => {
            reseat(cursors, view, cursor);
            let _after = book.parts();
            Ok(damage_of(damage, changed.part, changed.positions.get()))
        }
        Err(memory) => {
            unseat(cursors, view, new);
            Err(memory)
        }
    }
}

// Whether the cell may get the raw text.
#[tactic(auto, unfolding(sheet_rules::specs::Typing::fits))]
fn fits(book: &Book, at: &CellRef, raw: &str) -> bool
    requires cell { IsCell (length book.now) at.now }
    requires raw { IsTrue (list_all is_raw_byte raw.now) }
    ensures fits { result ≡ fits book.now at.now raw.now }
    ensures raw { OnTrue result (IsRaw raw.now) }
{
    if raw.len() > RAW_LIMIT {
        return false;
    }
    book.text_len_with(at, raw) <= FILE_LIMIT as u64
}
