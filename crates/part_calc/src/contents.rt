//! A raw text and what it says.
ghost use Rattle.std.specs.Prelude.{◌≡◌, IfOk};
ghost use Rattle.sheet_formula.specs.Grammar.{formula_of};
ghost use Rattle.part_calc.specs.Contents.{content_of, plain_value, blocks_in};

use cool_base::{Memory, TextOf};
use formula_base::{Block, Expr, Name, Value, blocks};
use sheet_cells::{Plain, read_plain};
use sheet_formula::read_formula;
use std::alloc::Global;
use std::marker::Model;

/// What a raw text says.
#[derive(Drop)]
pub enum Content {
    /// The text has no formula, and is this value.
    Plain(Value),
    Formula(Expr),
}

/// A raw text, which is how contracts see it, what it says, and the blocks of cells that it names.
#[derive(Drop)]
pub struct Cell {
    raw: TextOf,
    content: Content,
    blocks: Vec<Block>,
}

impl Model for Cell {
    ghost use Rattle.std.specs.Prelude.{◌≡◌, List, ℕ};
    ghost use Rattle.std.specs.Coded.{coded_list, coded_ℕ};

    ghost Value = { List ℕ };

    ghost coded = { coded_list coded_ℕ };

    ghost use Rattle.part_calc.specs.Contents.{content_of, blocks_in};

    ghost view = { λ cell. cell.raw };

    ghost invariant = { λ cell. (cell.content ≡ content_of cell.raw) × (cell.blocks.items ≡ blocks_in (content_of cell.raw)) };
}

impl Cell {
    /// The cell with this raw text.
    pub fn of(alloc: Global, raw: &str) -> Result<Cell, Memory>
        ensures { IfOk result (λ cell. cell ≡ raw.now) }
    {
        let content = read_content(alloc, raw)?;
        let blocks = read_blocks(alloc, &content)?;
        let text = TextOf::of(String::from_str(alloc, raw)?);
        Ok(Cell {
            raw: text,
            content,
            blocks,
        })
    }

    /// The raw text.
    pub fn raw(&self) -> &str
        ensures { result.now ≡ self.now }
    {
        self.raw.get()
    }

    /// What the raw text says.
    pub fn content(&self) -> &Content
        ensures { result.now ≡ content_of self.now }
    {
        &self.content
    }

    /// The blocks of cells that it names.
    pub fn named_blocks(&self) -> &[Block]
        ensures { result.now ≡ blocks_in (content_of self.now) }
    {
        self.blocks.as_slice()
    }
}

// The blocks of cells that are named.
fn read_blocks(alloc: Global, content: &Content) -> Result<Vec<Block>, Memory>
    ensures { IfOk result (λ blocks. blocks.items ≡ blocks_in content.now) }
{
    match content {
        Content::Plain(_) => Ok(Vec::new(alloc)),
        Content::Formula(expression) => blocks(alloc, expression),
    }
}

// What the raw text says.
#[tactic(auto, unfolding(crate::specs::Contents::content_of))]
fn read_content(alloc: Global, raw: &str) -> Result<Content, Memory>
    ensures { IfOk result (λ content. content ≡ content_of raw.now) }
{
    match read_formula(alloc, raw)? {
        Some(expression) => Ok(Content::Formula(expression)),
        None => Ok(Content::Plain(plain_value(alloc, raw, read_plain(raw))?)),
    }
}

// The value of a raw text without a formula.
fn plain_value(alloc: Global, raw: &str, plain: Plain) -> Result<Value, Memory>
    ensures { IfOk result (λ value. value ≡ plain_value raw.now plain) }
{
    match plain {
        Plain::Empty => Ok(Value::Empty),
        Plain::Number(number) => Ok(Value::Number(number)),
        Plain::Text => Ok(Value::Words(Name::of(String::from_str(alloc, raw)?))),
    }
}
