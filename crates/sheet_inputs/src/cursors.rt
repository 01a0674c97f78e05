//! The cursors of views.
ghost use Rattle.std.specs.Prelude.{◌≡◌, ◌≢◌, None, IfOk, OnOk, OnErr, is_none, if◌then◌else◌};
ghost use Rattle.std.specs.Ordering.{nat_cmp};
ghost use Rattle.std.specs.Map.{lookup, remove_entry};
ghost use Rattle.std.specs.BTreeMap.{is_at, insert_entry};
ghost use Rattle.sheet_rules.specs.Typing.{cursor_of, first_cursor};

use cool_base::Memory;
use sheet_cells::CellRef;
use sheet_rules::Cursor;
use std::collections::BTreeMap;

/// Where the view stands in the part: at the cursor that it has there, or fresh at A1.
pub fn cursor_of(cursors: &BTreeMap<u32, Cursor>, view: u32, part: u32) -> Cursor
    ensures { result ≡ cursor_of cursors.now.entries view part }
{
    match cursors.get(&view) {
        Some(cursor) => {
            if cursor.at.part == part {
                *cursor
            } else {
                first_cursor(part)
            }
        }
        None => first_cursor(part),
    }
}

// Where a view stands that did nothing yet in the part.
fn first_cursor(part: u32) -> Cursor
    ensures { result ≡ first_cursor part }
{
    Cursor {
        at: CellRef {
            part,
            row: 0,
            col: 0,
        },
        fresh: true,
    }
}

// Gives the view the cursor where it has none, and answers whether it had none.
pub(crate) fn seat(
    cursors: &mut BTreeMap<u32, Cursor>,
    view: u32,
    cursor: Cursor,
) -> Result<bool, Memory>
    ensures ok { IfOk result (λ new. cursors.new.entries ≡ (if new then insert_entry nat_cmp cursors.old.entries view cursor else cursors.old.entries)) }
    ensures new { IfOk result (λ new. new ≡ is_none (lookup (is_at (nat_cmp view)) cursors.old.entries)) }
    ensures there { OnOk result (lookup (is_at (nat_cmp view)) cursors.new.entries ≢ None) }
    ensures err { OnErr result (cursors.new.entries ≡ cursors.old.entries) }
{
    if cursors.contains_key(&view) {
        return Ok(false);
    }
    cursors.insert(view, cursor)?;
    Ok(true)
}

// Gives the view, which has a cursor, another one. It takes no memory.
pub(crate) fn reseat(cursors: &mut BTreeMap<u32, Cursor>, view: u32, cursor: Cursor)
    requires { lookup (is_at (nat_cmp view)) cursors.old.entries ≢ None }
    ensures { cursors.new.entries ≡ insert_entry nat_cmp cursors.old.entries view cursor }
{
    let _ = cursors.insert(view, cursor);
}

// Takes the view's cursor away, where it is new.
pub(crate) fn unseat(cursors: &mut BTreeMap<u32, Cursor>, view: u32, new: bool)
    ensures { cursors.new.entries ≡ (if new then remove_entry (is_at (nat_cmp view)) cursors.old.entries else cursors.old.entries) }
{
    if new {
        let _ = cursors.remove(&view);
    }
}
