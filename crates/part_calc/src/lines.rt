//! The lines of a part in the text of a file.
ghost use Rattle.std.specs.Prelude.{◌≡◌, ◌<◌, ◌++◌, OnOk};
ghost use Rattle.std.specs.List.{AllByRecursion};
ghost use Rattle.part_calc.specs.Kept.{IsEntry};
ghost use Rattle.part_calc.specs.Text.{column_letters, reference_text, cell_line, part_lines};
ghost use Rattle.sheet_cells.specs.declared.limits.TheConstants.{COLUMNS};

use crate::contents::Cell;
use cool_base::Memory;
use cool_words::push_number;
use std::collections::BTreeMap;

/// Adds the lines of these cells, as those of the part of this number.
pub fn write_lines(
    cells: &BTreeMap<(u32, u32), Cell>,
    number: u32,
    out: &mut Vec<u8>,
) -> Result<(), Memory>
    requires { AllByRecursion IsEntry cells.now.entries }
    ensures { OnOk result (out.new.items ≡ out.old.items ++ part_lines number cells.now.entries) }
{
    for (position, cell) in cells {
        write_line(number, *position, cell.raw(), out)?;
    }
    Ok(())
}

// Adds a cell's line.
#[tactic(auto, unfolding(crate::specs::Text::cell_line))]
fn write_line(number: u32, position: (u32, u32), raw: &str, out: &mut Vec<u8>) -> Result<(), Memory>
    requires { position.1 < COLUMNS }
    ensures { OnOk result (out.new.items ≡ out.old.items ++ cell_line number (position, raw.now)) }
{
    push_number(out, u64::from(number))?;
    out.push(b' ')?;
    write_reference(position, out)?;
    out.push(b' ')?;
    out.extend_from_slice(raw.as_bytes())?;
    out.push(b'\n')?;
    Ok(())
}

// Adds a cell's name.
fn write_reference(position: (u32, u32), out: &mut Vec<u8>) -> Result<(), Memory>
    requires { position.1 < COLUMNS }
    ensures { OnOk result (out.new.items ≡ out.old.items ++ reference_text position) }
{
    write_column(position.1, out)?;
    push_number(out, u64::from(position.0) + 1)
}

// Adds a column's letters.
fn write_column(column: u32, out: &mut Vec<u8>) -> Result<(), Memory>
    requires { column < COLUMNS }
    ensures { OnOk result (out.new.items ≡ out.old.items ++ column_letters column) }
{
    if column >= 26 {
        out.push(b'A' - 1 + (column / 26) as u8)?;
        out.push(b'A' + (column % 26) as u8)?;
    } else {
        out.push(b'A' + column as u8)?;
    }
    Ok(())
}
