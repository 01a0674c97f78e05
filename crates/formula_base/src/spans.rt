//! The cells between two corners.
ghost use Rattle.std.specs.Prelude.{◌≡◌, ◌≤◌, ◌+◌, ◌-◌, ◌++◌, IfOk, OnOk};
ghost use Rattle.std.specs.List.{range_with_len};
ghost use Rattle.formula_base.specs.Ranges.{cells_between, row_cells};

use cool_base::Memory;
use std::alloc::Global;

/// The cells between two corners, each a row and a column, in whichever order the corners come, row
/// by row.
pub fn cells_between(
    alloc: Global,
    first: (u32, u32),
    last: (u32, u32),
) -> Result<Vec<(u32, u32)>, Memory>
    ensures { IfOk result (λ cells. cells.items ≡ cells_between first last) }
{
    let left = first.1.min(last.1);
    let right = first.1.max(last.1);
    let top = first.0.min(last.0);
    let bottom = first.0.max(last.0);
    let mut cells = Vec::new(alloc);
    for row in u64::from(top)..u64::from(bottom) + 1 {
        push_row(&mut cells, row as u32, left, right)?;
    }
    Ok(cells)
}

// Adds the cells of one row.
#[tactic(auto, using(crate::proofs::SpanLaws::row_more))]
fn push_row(cells: &mut Vec<(u32, u32)>, row: u32, left: u32, right: u32) -> Result<(), Memory>
    requires { left ≤ right }
    ensures { OnOk result (cells.new.items ≡ cells.old.items ++ row_cells (range_with_len left (right - left + 1)) row) }
{
    for column in left..=right {
        cells.push((row, column))?;
    }
    Ok(())
}
