//! Damaged cells as rectangles.
ghost use Rattle.std.specs.Prelude.{◌≡◌, ℕ, ◌+◌, ◌*◌, ◌^◌, ◌<◌, ◌≤◌, [], ◌∷◌, ◌++◌, List, length, map, drop, vec_len, vec_capacity};
ghost use Rattle.std.specs.List.{AllByRecursion};
ghost use Rattle.cool_base.specs.Points.{Rectangle};
ghost use Rattle.cell_damage.specs.Rectangles.{rect_over_all, damaged};
ghost use Rattle.cell_damage.specs.Cells.{IsInReach, stretches, is_next, one_cell, rect_of, damage_of};

use crate::limits::{CELL_HEIGHT, CELL_WIDTH, MOST_RECTANGLES};
use crate::rectangles::rect_over;
use crate::stretches::Stretch;
use cool_base::Rect;
use kit_trait::Damage;

/// Adds to `damage`, which is empty and has room for `MOST_RECTANGLES`, the damage of the part in
/// which these cells are damaged, each a row and a column. It takes no memory.
#[tactic(auto, unfolding(crate::specs::Cells::damage_of, crate::specs::Rectangles::damage_in))]
pub fn damage_of(mut damage: Vec<Damage>, part: u32, cells: &[(u32, u32)]) -> Vec<Damage>
    requires none { damage.items ≡ [] }
    requires room { MOST_RECTANGLES ≤ vec_capacity damage }
    requires cells { AllByRecursion IsInReach cells.now }
    ensures { result.items ≡ damage_of part cells.now }
{
    if count(cells) <= MOST_RECTANGLES {
        push_each(&mut damage, part, cells);
    } else {
        let rect = rect_over_all(cells);
        let _ = damage.push(Damage { part, rect });
    }
    damage
}

// How many stretches the cells make.
fn count(cells: &[(u32, u32)]) -> usize
    requires { AllByRecursion IsInReach cells.now }
    ensures { result ≡ length (stretches cells.now) }
{
    let mut rest = cells;
    let mut number: usize = 0;
    while !rest.is_empty() {
        let stretch = first_stretch(rest);
        number += 1;
        rest = &rest[stretch.count as usize..];
    }
    number
}

// Adds a rectangle for each stretch, for which there is room.
fn push_each(damage: &mut Vec<Damage>, part: u32, cells: &[(u32, u32)])
    requires none { damage.old.items ≡ [] }
    requires room { length (stretches cells.now) ≤ vec_capacity damage.old }
    requires cells { AllByRecursion IsInReach cells.now }
    ensures { damage.new.items ≡ map (damaged part) (map rect_of (stretches cells.now)) }
{
    let mut rest = cells;
    while !rest.is_empty() {
        let stretch = first_stretch(rest);
        let rect = rect_of(stretch);
        let _ = damage.push(Damage { part, rect });
        rest = &rest[stretch.count as usize..];
    }
}

// The least rectangle that holds all stretches.
fn rect_over_all(cells: &[(u32, u32)]) -> Rect
    requires some { 1 ≤ length cells.now }
    requires cells { AllByRecursion IsInReach cells.now }
    ensures { (s : Rectangle) (ss : List Rectangle) → map rect_of (stretches cells.now) ≡ s ∷ ss → result ≡ rect_over_all s ss }
{
    let first = first_stretch(cells);
    let mut over = rect_of(first);
    let mut rest = &cells[first.count as usize..];
    while !rest.is_empty() {
        let stretch = first_stretch(rest);
        over = rect_over(over, rect_of(stretch));
        rest = &rest[stretch.count as usize..];
    }
    over
}

// The points of a stretch.
fn rect_of(stretch: Stretch) -> Rect
    requires lower { (stretch.row + 1) * CELL_HEIGHT < 2 ^ 32 }
    requires right { (stretch.col + stretch.count) * CELL_WIDTH < 2 ^ 32 }
    ensures { result ≡ rect_of stretch }
{
    Rect {
        x: stretch.col * CELL_WIDTH,
        y: stretch.row * CELL_HEIGHT,
        w: stretch.count * CELL_WIDTH,
        h: CELL_HEIGHT,
    }
}

// The stretch that the cells begin with.
fn first_stretch(cells: &[(u32, u32)]) -> Stretch
    requires some { 1 ≤ length cells.now }
    requires cells { AllByRecursion IsInReach cells.now }
    ensures first { stretches cells.now ≡ result ∷ stretches (drop result.count cells.now) }
    ensures some { 1 ≤ result.count }
    ensures within { result.count ≤ length cells.now }
    ensures lower { (result.row + 1) * CELL_HEIGHT < 2 ^ 32 }
    ensures right { (result.col + result.count) * CELL_WIDTH < 2 ^ 32 }
{
    let (row, col) = cells[0];
    for i in 1..cells.len() {
        let stretch = Stretch {
            row,
            col,
            count: i as u32,
        };
        if !is_next(stretch, cells[i]) {
            return stretch;
        }
    }
    Stretch {
        row,
        col,
        count: cells.len() as u32,
    }
}

// Whether the cell continues the stretch.
fn is_next(stretch: Stretch, cell: (u32, u32)) -> bool
    requires { (stretch.col + stretch.count) * CELL_WIDTH < 2 ^ 32 }
    ensures { result ≡ is_next stretch (one_cell cell) }
{
    stretch.row == cell.0 && stretch.col + stretch.count == cell.1
}
