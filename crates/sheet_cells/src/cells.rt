//! `Cells`: the raw texts of a document by cell.
ghost use Rattle.std.specs.Prelude.{◌≡◌, ◌≢◌, ◌≤◌, [], OnOk, OnErr, IfOk};

use crate::limits::MOST_PARTS;
use cool_base::{Memory, TextOf};
use std::alloc::Global;
use std::collections::BTreeMap;
use std::marker::Model;

/// A cell: its part, row and column, each counted from 0. Cells are in order of parts, then rows,
/// then columns.
#[derive(Clone, Copy, Debug, PartialEq, Eq, PartialOrd, Ord)]
pub struct CellRef {
    pub part: u32,
    /// Below `ROWS`.
    pub row: u32,
    /// Below `COLUMNS`.
    pub col: u32,
}

/// The raw texts of a document of 1 to 16 parts, by cell. A cell whose raw text is empty has none.
#[derive(Drop)]
pub struct Cells {
    alloc: Global,
    parts: u32,
    texts: BTreeMap<CellRef, TextOf>,
}

impl Model for Cells {
    ghost use Rattle.std.specs.Coded.{coded×, coded_list, coded_ℕ, code_by};
    ghost use Rattle.sheet_cells.specs.Cells.{Texts, coded_texts};

    ghost Value = { Texts };

    ghost coded = { coded_texts };

    ghost view = { λ c. record { parts = c.parts; texts = c.texts.entries } };
}

impl Cells {
    ghost use Rattle.sheet_cells.specs.Cells.{IsCell, IsRaw, text_at, with_text};

    /// `parts` parts in which every raw text is empty.
    pub fn new(alloc: Global, parts: u32) -> Result<Cells, Memory>
        requires some { 1 ≤ parts }
        requires few { parts ≤ MOST_PARTS }
        ensures { IfOk result (λ cells. cells ≡ record { parts = parts; texts = [] }) }
    {
        let texts = BTreeMap::new(alloc);
        Ok(Cells {
            alloc,
            parts,
            texts,
        })
    }

    /// Gives the cell the raw text. After `Memory` all is unchanged.
    pub fn set(&mut self, at: &CellRef, raw: &str) -> Result<(), Memory>
        requires cell { IsCell self.old.parts at.now }
        requires valid { IsRaw raw.now }
        ensures ok { OnOk result (self.new ≡ record self.old { texts = with_text self.old.texts at.now raw.now }) }
        ensures there { OnOk result (text_at self.new.texts at.now ≡ raw.now) }
        ensures elsewhere { OnOk result ((other : CellRef) → other ≢ at.now → text_at self.new.texts other ≡ text_at self.old.texts other) }
        ensures err { OnErr result (self.new ≡ self.old) }
    {
        if raw.is_empty() {
            let _ = self.texts.remove(at);
            return Ok(());
        }
        let text = TextOf::of(String::from_str(self.alloc, raw)?);
        self.texts.insert(*at, text)?;
        Ok(())
    }

    /// The cell's raw text, empty where it has none.
    pub fn raw(&self, at: &CellRef) -> &str
        requires { IsCell self.now.parts at.now }
        ensures { result.now ≡ text_at self.now.texts at.now }
    {
        match self.texts.get(at) {
            Some(text) => text.get(),
            None => "",
        }
    }
}
