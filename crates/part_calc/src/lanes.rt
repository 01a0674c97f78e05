//! Who names a cell: the blocks that formulas name, by lanes.
//!
//! A block stands in one lane: that of its cell, where it has no other; that of its column or of its
//! row, where it lies in one; else in that of the sixteen rows or of the 256 rows in which it lies, and
//! else in the lane of all others. So the formulas that name a cell stand in six lanes: that of the cell,
//! those of its column and its row, those of the sixteen and of the 256 rows about it, and the last.
ghost use Rattle.std.specs.Prelude.{◌≡◌, ◌||◌, ◌++◌, ◌∷◌, [], not, true, false, Bool, IfOk, OnOk, OnErr, if◌then◌else◌};
ghost use Rattle.std.specs.List.{list_any, filter};
ghost use Rattle.std.specs.BTreeMap.{is_at};
ghost use Rattle.formula_base.specs.Ranges.{Position, position_cmp};
ghost use Rattle.formula_base.specs.Blocks.{Block as BlockAt};
ghost use Rattle.part_calc.specs.Lanes.{wide_lane, lane_of, spans_in, is_block, is_span, has_span, IsGrown, Knows};

use crate::contents::Cell;
use cool_base::Memory;
use formula_base::Block;
use sheet_cells::{COLUMNS, ROWS};
use std::alloc::Global;
use std::collections::BTreeMap;
use std::marker::Model;

/// A block that a formula names, and the formula's cell.
#[derive(Clone, Copy)]
pub struct Span {
    pub block: Block,
    pub reader: (u32, u32),
}

/// The spans of a lane, which is how contracts see it.
#[derive(Drop)]
pub struct Lane {
    spans: Vec<Span>,
}

impl Model for Lane {
    ghost use Rattle.std.specs.Prelude.{List};
    ghost use Rattle.std.specs.Coded.{coded_list};
    ghost use Rattle.part_calc.specs.declared.lanes.Span.{Span};
    ghost use Rattle.part_calc.specs.Lanes.{coded_span};

    ghost Value = { List Span };

    ghost coded = { coded_list coded_span };

    ghost view = { λ lane. lane.spans.items };
}

impl Lane {
    /// No span. It takes no memory.
    pub fn new(alloc: Global) -> Lane
        ensures { result ≡ [] }
    {
        Lane {
            spans: Vec::new(alloc),
        }
    }

    /// The spans, lent.
    pub fn spans(&self) -> &[Span]
        ensures { result.now ≡ self.now }
    {
        self.spans.as_slice()
    }

    // Adds a span. After `Memory` all is unchanged.
    fn push(&mut self, span: Span) -> Result<(), Memory>
        ensures ok { OnOk result (self.new ≡ self.old ++ span ∷ []) }
        ensures err { OnErr result (self.new ≡ self.old) }
    {
        self.spans.push(span)?;
        Ok(())
    }

    // Takes out a span.
    fn forget(&mut self, gone: &Span)
        ensures { self.new ≡ filter (λ s. not (is_span gone.now.block gone.now.reader s)) self.old }
    {
        forget_span(&mut self.spans, gone);
    }
}

// Takes a span out of a list.
fn forget_span(spans: &mut Vec<Span>, gone: &Span)
    ensures { spans.new.items ≡ filter (λ s. not (is_span gone.now.block gone.now.reader s)) spans.old.items }
{
    spans.retain(|span| !is_span(gone, span));
}

/// The lanes that have a span.
pub type Index = BTreeMap<(u32, u32), Lane>;

// Whether the spans are one.
fn is_span(span: &Span, other: &Span) -> bool
    ensures { result ≡ is_span span.now.block span.now.reader other.now }
{
    is_block(span.block, other.block) && is_cell(span.reader, other.reader)
}

// Whether two blocks are one.
fn is_block(block: Block, other: Block) -> bool
    ensures { result ≡ is_block block other }
{
    is_cell(block.0, other.0) && is_cell(block.1, other.1)
}

/// Whether two cells are one.
pub fn is_cell(cell: (u32, u32), other: (u32, u32)) -> bool
    ensures { result ≡ is_at (position_cmp cell) other }
{
    cell == other
}

/// The lane of a block.
pub fn lane_of(block: Block) -> (u32, u32)
    ensures { result ≡ lane_of block }
{
    let (first, last) = block;
    if first.1 == last.1 {
        if first.0 == last.0 {
            first
        } else {
            (ROWS, first.1)
        }
    } else if first.0 == last.0 {
        (first.0, COLUMNS)
    } else {
        wide_lane(block)
    }
}

// The lane of a block of several rows and columns.
fn wide_lane(block: Block) -> (u32, u32)
    ensures { result ≡ wide_lane block }
{
    let (first, last) = block;
    if first.0 / 16 == last.0 / 16 {
        (ROWS + 1, first.0 / 16)
    } else if first.0 / 256 == last.0 / 256 {
        (ROWS + 2, first.0 / 256)
    } else {
        (ROWS, COLUMNS)
    }
}

/// The lanes of the blocks that the formulas of these cells name.
pub fn index_of(alloc: Global, cells: &BTreeMap<(u32, u32), Cell>) -> Result<Index, Memory>
    ensures { IfOk result (λ index. Knows cells.now.entries index.entries) }
{
    let mut index = BTreeMap::new(alloc);
    for (position, cell) in cells {
        add(alloc, &mut index, cell.named_blocks(), *position, &[])?;
    }
    Ok(index)
}

/// Adds the blocks of a cell that aren't among others that stand there. Nothing is taken out.
pub fn add(
    alloc: Global,
    index: &mut Index,
    blocks: &[Block],
    reader: (u32, u32),
    present: &[Block],
) -> Result<(), Memory>
    ensures grown { IsGrown index.old.entries index.new.entries }
    ensures added { OnOk result ((b : BlockAt) → list_any (is_block b) blocks.now ≡ true → (list_any (is_block b) present.now || has_span index.new.entries b reader) ≡ true) }
{
    for block in blocks {
        add_block(alloc, index, *block, reader, present)?;
    }
    Ok(())
}

// Adds a block of a cell, unless it is among others that stand there.
fn add_block(
    alloc: Global,
    index: &mut Index,
    block: Block,
    reader: (u32, u32),
    present: &[Block],
) -> Result<(), Memory>
    ensures grown { IsGrown index.old.entries index.new.entries }
    ensures added { OnOk result ((b : BlockAt) → is_block b block ≡ true → (list_any (is_block b) present.now || has_span index.new.entries b reader) ≡ true) }
{
    if is_among(present, block) {
        return Ok(());
    }
    push(alloc, index, lane_of(block), Span { block, reader })
}

// Whether the block is one of these.
fn is_among(blocks: &[Block], block: Block) -> bool
    ensures { result ≡ list_any (is_block block) blocks.now }
{
    blocks.iter().any(|other| is_block(block, *other))
}

// Adds a span to a lane. After `Memory` all is unchanged.
#[tactic(auto, unfolding(crate::specs::Lanes::spans_in))]
fn push(alloc: Global, index: &mut Index, lane: (u32, u32), span: Span) -> Result<(), Memory>
    ensures ok { OnOk result ((q : Position) → spans_in index.new.entries q ≡ (if is_at (position_cmp q) lane then spans_in index.old.entries q ++ span ∷ [] else spans_in index.old.entries q)) }
    ensures err { OnErr result ((q : Position) → spans_in index.new.entries q ≡ spans_in index.old.entries q) }
{
    if let Some(spans) = index.get_mut(&lane) {
        return spans.push(span);
    }
    let mut spans = Lane::new(alloc);
    spans.push(span)?;
    index.insert(lane, spans)?;
    Ok(())
}

/// Takes out the blocks of a cell that aren't among those that stay.
pub fn forget(index: &mut Index, blocks: &[Block], reader: (u32, u32), staying: &[Block])
    ensures { (b : BlockAt) (c : Position) → has_span index.old.entries b c ≡ true → (not (is_at (position_cmp c) reader) || list_any (is_block b) staying.now) ≡ true → has_span index.new.entries b c ≡ true }
{
    for block in blocks {
        forget_block(index, *block, reader, staying);
    }
}

// Takes out a block of a cell, unless it is among those that stay.
fn forget_block(index: &mut Index, block: Block, reader: (u32, u32), staying: &[Block])
    ensures { (b : BlockAt) (c : Position) → has_span index.old.entries b c ≡ true → (not (is_at (position_cmp c) reader) || list_any (is_block b) staying.now) ≡ true → has_span index.new.entries b c ≡ true }
{
    if is_among(staying, block) {
        return;
    }
    clear(index, lane_of(block), block, reader);
}

// Takes a block of a cell out of a lane.
#[tactic(auto, unfolding(crate::specs::Lanes::spans_in))]
fn clear(index: &mut Index, lane: (u32, u32), block: Block, reader: (u32, u32))
    ensures { (q : Position) → spans_in index.new.entries q ≡ (if is_at (position_cmp q) lane then filter (λ s. not (is_span block reader s)) (spans_in index.old.entries q) else spans_in index.old.entries q) }
{
    if let Some(spans) = index.get_mut(&lane) {
        spans.forget(&Span { block, reader });
    }
}
