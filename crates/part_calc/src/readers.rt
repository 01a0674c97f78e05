//! The cells that read a cell.
ghost use Rattle.std.specs.Prelude.{◌≡◌, IfOk};
ghost use Rattle.std.specs.List.{list_any};
ghost use Rattle.formula_base.specs.Blocks.{is_within};
ghost use Rattle.part_calc.specs.Contents.{content_of, reads_in};
ghost use Rattle.part_calc.specs.Finding.{is_listed};
ghost use Rattle.part_calc.specs.Readers.{readers_of};

use crate::contents::Cell;
use cool_base::Memory;
use formula_base::Block;
use std::alloc::Global;
use std::collections::BTreeMap;

/// The cells whose formula names the cell at a position, each once, by rows and then columns.
pub fn readers(
    alloc: Global,
    cells: &BTreeMap<(u32, u32), Cell>,
    at: (u32, u32),
) -> Result<Vec<(u32, u32)>, Memory>
    ensures { IfOk result (λ readers. readers.items ≡ readers_of cells.now.entries at) }
{
    let mut readers = Vec::new(alloc);
    for (position, cell) in cells {
        if names(cell, at) {
            readers.push(*position)?;
        }
    }
    Ok(readers)
}

// Whether the cell's formula names the cell at a position.
#[tactic(auto, using(crate::proofs::ReaderLaws::named))]
fn names(cell: &Cell, at: (u32, u32)) -> bool
    ensures { result ≡ is_listed (reads_in (content_of cell.now)) at }
{
    is_in(cell.named_blocks(), at)
}

// Whether the cell lies in one of the blocks.
fn is_in(blocks: &[Block], at: (u32, u32)) -> bool
    ensures { result ≡ list_any (is_within at) blocks.now }
{
    blocks.iter().any(|block| is_within(at, *block))
}

/// Whether the cell lies in the block.
pub fn is_within(at: (u32, u32), block: Block) -> bool
    ensures { result ≡ is_within at block }
{
    let (first, last) = block;
    let down = first.0.min(last.0) <= at.0 && at.0 <= first.0.max(last.0);
    down && first.1.min(last.1) <= at.1 && at.1 <= first.1.max(last.1)
}
