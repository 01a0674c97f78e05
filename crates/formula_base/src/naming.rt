//! The cells that an expression names, each alone, and as blocks.
ghost use Rattle.std.specs.Prelude.{◌≡◌, ◌++◌, IfOk, OnOk, fold};
ghost use Rattle.std.specs.List.{list_any};
ghost use Rattle.std.specs.BTreeMap.{is_at};
ghost use Rattle.std.specs.BTreeSet.{insert_key};
ghost use Rattle.formula_base.specs.Evaluation.{names_of, reads_of};
ghost use Rattle.formula_base.specs.Ranges.{Position, position_cmp, cells_between};
ghost use Rattle.formula_base.specs.Blocks.{is_within, blocks_of};

use crate::expressions::{Argument, Expr};
use crate::spans::cells_between;
use cool_base::Memory;
use std::alloc::Global;
use std::collections::BTreeSet;

/// The cells that the expression names, in branches not taken too: each once, as row and column, by
/// rows and then columns.
pub fn reads(alloc: Global, expr: &Expr) -> Result<Vec<(u32, u32)>, Memory>
    ensures { IfOk result (λ cells. cells.items ≡ reads_of expr.now) }
{
    let mut named = BTreeSet::new(alloc);
    name(alloc, expr, &mut named)?;
    Ok(named.into_iter().collect(alloc)?)
}

// Adds the cells that the expression names.
fn name(alloc: Global, expr: &Expr, named: &mut BTreeSet<(u32, u32)>) -> Result<(), Memory>
    ensures { OnOk result (named.new.keys ≡ fold (insert_key position_cmp) named.old.keys (names_of expr.now)) }
{
    match expr {
        Expr::Number(_) => Ok(()),
        Expr::Words(_) => Ok(()),
        Expr::Cell(position) => name_cell(*position, named),
        Expr::Negate(operand) => name(alloc, operand.get(), named),
        Expr::Chain(first, links) => {
            name(alloc, first.get(), named)?;
            for link in links.as_slice() {
                name(alloc, &link.operand, named)?;
            }
            Ok(())
        }
        Expr::Compare(_, left, right) => {
            name(alloc, left.get(), named)?;
            name(alloc, right.get(), named)
        }
        Expr::Call(_, arguments) => {
            for argument in arguments.as_slice() {
                match argument {
                    Argument::Range(first, last) => name_range(alloc, *first, *last, named)?,
                    Argument::One(value) => name(alloc, value, named)?,
                }
            }
            Ok(())
        }
        Expr::If(condition, first, second) => {
            name(alloc, condition.get(), named)?;
            name(alloc, first.get(), named)?;
            name(alloc, second.get(), named)
        }
    }
}

// Adds a cell.
fn name_cell(position: (u32, u32), named: &mut BTreeSet<(u32, u32)>) -> Result<(), Memory>
    ensures { OnOk result (named.new.keys ≡ insert_key position_cmp named.old.keys position) }
{
    named.insert(position)?;
    Ok(())
}

// Adds the cells between two corners.
fn name_range(
    alloc: Global,
    first: (u32, u32),
    last: (u32, u32),
    named: &mut BTreeSet<(u32, u32)>,
) -> Result<(), Memory>
    ensures { OnOk result (named.new.keys ≡ fold (insert_key position_cmp) named.old.keys (cells_between first last)) }
{
    let cells = cells_between(alloc, first, last)?;
    for position in &cells {
        name_cell(*position, named)?;
    }
    Ok(())
}

/// A block of cells by two corners, each a row and a column, in whichever order they come.
pub type Block = ((u32, u32), (u32, u32));

/// The blocks that the expression names, in branches not taken too, in the order of its text: each cell
/// alone, and each range by its corners. It takes time for the text alone, and none for the cells of a
/// range. A cell is named exactly where it lies in one of the blocks.
#[tactic(auto, using(crate::proofs::BlockLaws::held))]
pub fn blocks(alloc: Global, expr: &Expr) -> Result<Vec<Block>, Memory>
    ensures blocks { IfOk result (λ blocks. blocks.items ≡ blocks_of expr.now) }
    ensures cells { IfOk result (λ blocks. (p : Position) → list_any (is_within p) blocks.items ≡ list_any (is_at (position_cmp p)) (names_of expr.now)) }
{
    let mut blocks = Vec::new(alloc);
    add_blocks(expr, &mut blocks)?;
    Ok(blocks)
}

// Adds the blocks that the expression names.
fn add_blocks(expr: &Expr, blocks: &mut Vec<Block>) -> Result<(), Memory>
    ensures { OnOk result (blocks.new.items ≡ blocks.old.items ++ blocks_of expr.now) }
{
    match expr {
        Expr::Number(_) => Ok(()),
        Expr::Words(_) => Ok(()),
        Expr::Cell(position) => Ok(blocks.push((*position, *position))?),
        Expr::Negate(operand) => add_blocks(operand.get(), blocks),
        Expr::Chain(first, links) => {
            add_blocks(first.get(), blocks)?;
            for link in links.as_slice() {
                add_blocks(&link.operand, blocks)?;
            }
            Ok(())
        }
        Expr::Compare(_, left, right) => {
            add_blocks(left.get(), blocks)?;
            add_blocks(right.get(), blocks)
        }
        Expr::Call(_, arguments) => {
            for argument in arguments.as_slice() {
                match argument {
                    Argument::Range(first, last) => blocks.push((*first, *last))?,
                    Argument::One(value) => add_blocks(value, blocks)?,
                }
            }
            Ok(())
        }
        Expr::If(condition, first, second) => {
            add_blocks(condition.get(), blocks)?;
            add_blocks(first.get(), blocks)?;
            add_blocks(second.get(), blocks)
        }
    }
}
