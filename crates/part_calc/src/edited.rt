//! A part as it is with one more edit.
ghost use Rattle.std.specs.Prelude.{◌≡◌, [], false, MatchOption};
ghost use Rattle.std.specs.List.Sorted.{IsStrictlySortedBy};
ghost use Rattle.std.specs.Map.{keys_of};
ghost use Rattle.formula_base.specs.Blocks.{blocks_of};
ghost use Rattle.formula_base.specs.Ranges.{position_cmp};
ghost use Rattle.part_calc.specs.Contents.{is_formula, content_of};
ghost use Rattle.part_calc.specs.Parts.{text_at, with_text, content_at};
ghost use Rattle.part_calc.specs.declared.contents.Content.TheVariants.{Plain, Formula};
ghost use Rattle.formula_base.specs.declared.values.Value.TheVariants.{Empty};

use crate::contents::{Cell, Content};
use formula_base::{Block, Expr};
use std::collections::BTreeMap;
use std::marker::Model;

/// A part as it is once a cell has another raw text, of which no copy is made. Contracts see it as that
/// part.
#[derive(Drop)]
pub struct Edited<'a> {
    cells: &'a BTreeMap<(u32, u32), Cell>,
    at: (u32, u32),
    cell: &'a Cell,
}

impl<'a> Model for Edited<'a> {
    ghost use Rattle.std.specs.Prelude.{List, ℕ};
    ghost use Rattle.std.specs.Map.{keys_of};
    ghost use Rattle.std.specs.List.Sorted.{IsStrictlySortedBy};
    ghost use Rattle.std.specs.Coded.{coded×, coded_list, coded_ℕ};
    ghost use Rattle.formula_base.specs.Ranges.{position_cmp};
    ghost use Rattle.part_calc.specs.Parts.{Part, with_text};

    ghost Value = { Part };

    ghost coded = { coded_list (coded× (coded× coded_ℕ coded_ℕ) (coded_list coded_ℕ)) };

    ghost view = { λ e. with_text e.cells.now.entries e.at e.cell.now };

    ghost invariant = { λ e. IsStrictlySortedBy position_cmp (keys_of e.cells.now.entries) };
}

impl<'a> Edited<'a> {
    /// The part of these cells once the cell at a position is this one.
    pub fn of(cells: &'a BTreeMap<(u32, u32), Cell>, at: (u32, u32), cell: &'a Cell) -> Edited<'a>
        ensures { result ≡ with_text cells.now.entries at cell.now }
    {
        let _count = cells.len();
        Edited { cells, at, cell }
    }

    /// The cells before the edit, the position of the edit, and its cell.
    pub fn parts(&self) -> (&'a BTreeMap<(u32, u32), Cell>, (u32, u32), &'a Cell)
        ensures whole { self.now ≡ with_text result.0.now.entries result.1 result.2.now }
        ensures ordered { IsStrictlySortedBy position_cmp (keys_of result.0.now.entries) }
    {
        (self.cells, self.at, self.cell)
    }

    /// The cell at a position; None only where it has no raw text.
    pub fn cell(&self, position: (u32, u32)) -> Option<&'a Cell>
        ensures { MatchOption result (text_at self.now position ≡ []) (λ cell. cell.now ≡ text_at self.now position) }
    {
        if position == self.at {
            Some(self.cell)
        } else {
            self.cells.get(&position)
        }
    }

    /// What the text at a position says; None only where there is none.
    #[tactic(auto, using(crate::proofs::TextLaws::empty_at))]
    pub fn content(&self, position: (u32, u32)) -> Option<&'a Content>
        ensures { MatchOption result (content_at self.now position ≡ Plain Empty) (λ content. content.now ≡ content_at self.now position) }
    {
        match self.cell(position) {
            Some(cell) => Some(cell.content()),
            None => None,
        }
    }

    /// The formula at a position.
    #[tactic(auto, using(crate::proofs::TextLaws::no_formula))]
    pub fn formula(&self, position: (u32, u32)) -> Option<&'a Expr>
        ensures { MatchOption result (is_formula (content_at self.now position) ≡ false) (λ expression. content_at self.now position ≡ Formula expression.now) }
    {
        match self.cell(position) {
            Some(cell) => formula_of(cell),
            None => None,
        }
    }

    /// The formula at a position, and the blocks that it names.
    #[tactic(auto, using(crate::proofs::TextLaws::no_formula))]
    pub fn naming_formula(&self, position: (u32, u32)) -> Option<(&'a Expr, &'a [Block])>
        ensures { MatchOption result (is_formula (content_at self.now position) ≡ false) (λ f. (content_at self.now position ≡ Formula f.0.now) × (f.1.now ≡ blocks_of f.0.now)) }
    {
        match self.cell(position) {
            Some(cell) => naming_formula_of(cell),
            None => None,
        }
    }
}

// The formula that the cell's text holds.
fn formula_of(cell: &Cell) -> Option<&Expr>
    ensures { MatchOption result (is_formula (content_of cell.now) ≡ false) (λ expression. content_of cell.now ≡ Formula expression.now) }
{
    match cell.content() {
        Content::Formula(expression) => Some(expression),
        Content::Plain(_) => None,
    }
}

// The formula that the cell's text holds, and the blocks that it names.
fn naming_formula_of(cell: &Cell) -> Option<(&Expr, &[Block])>
    ensures { MatchOption result (is_formula (content_of cell.now) ≡ false) (λ f. (content_of cell.now ≡ Formula f.0.now) × (f.1.now ≡ blocks_of f.0.now)) }
{
    match cell.content() {
        Content::Formula(expression) => Some((expression, cell.named_blocks())),
        Content::Plain(_) => None,
    }
}
