//! What a scene holds of a sheet document.
ghost use Rattle.sheet_rules.specs.ShownTexts.{same_shown, shown_equivalence};

use cool_base::TextOf;

/// The text that a cell of a part shows, with the cell's row and column, counted from 0.
#[derive(Debug, Drop)]
pub struct ShownText {
    /// Below `ROWS`.
    pub row: u32,
    /// Below `COLUMNS`.
    pub col: u32,
    pub text: TextOf,
}

impl PartialEq for ShownText {
    ghost use Rattle.std.specs.Cmp.{partial_equiv_from_equiv};
    ghost use Rattle.sheet_rules.specs.ShownTexts.{same_shown, shown_equivalence};

    ghost eq = { same_shown };

    ghost laws = { partial_equiv_from_equiv shown_equivalence };

    fn eq(&self, other: &ShownText) -> bool {
        self.row == other.row && self.col == other.col && self.text.get() == other.text.get()
    }
}

impl Eq for ShownText {
    ghost use Rattle.sheet_rules.specs.ShownTexts.{shown_equivalence};

    ghost laws = { shown_equivalence };
}
