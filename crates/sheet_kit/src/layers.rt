//! The lines and the texts of a sheet document on a canvas.
ghost use Rattle.std.specs.Prelude.{◌≡◌, ◌<◌, ◌≤◌, List, [], ◌∷◌, ◌++◌};
ghost use Rattle.kit_trait.specs.Pictures.{white};
ghost use Rattle.tile_raster.specs.Painting.{Shows};
ghost use Rattle.sheet_rules.specs.declared.cuts.ShownText.{ShownText};
ghost use Rattle.sheet_rules.specs.Colours.{has_lines};
ghost use Rattle.sheet_rules.specs.Cuts.{cut_colour};
ghost use Rattle.sheet_kit.specs.Layers.{column_line, row_line, on_columns, on_edges, on_lines, lined, cell_within};

use cell_damage::{CELL_HEIGHT, CELL_WIDTH};
use cool_base::Rect;
use sheet_cells::{COLUMNS, ROWS};
use sheet_rules::{PART_HEIGHT, PART_WIDTH, ShownText};
use tile_key::Area;
use tile_raster::Canvas;

// The colour of lines.
const GREY: [u8; 4] = [192, 192, 192, 255];

// Whether the area's look has lines.
pub(crate) fn has_lines(area: &Area) -> bool
    ensures { result ≡ has_lines area.now.nviewid }
{
    area.nviewid() == 0
}

// Draws the lines of the cells that the area meets, where there are lines.
#[tactic(auto, using(crate::proofs::Layering::lines_drawn, crate::proofs::Layering::lines_left))]
pub(crate) fn draw_lines(canvas: &mut Canvas, area: &Area, lines: bool)
    requires { Shows (λ part x y. white) area.now canvas.old }
    ensures { Shows (λ part x y. lined (on_lines lines x y)) area.now canvas.new }
{
    if lines {
        draw_columns(canvas, area);
        draw_rows(canvas, area);
    }
}

// Draws the lines of the columns that the area meets.
fn draw_columns(canvas: &mut Canvas, area: &Area)
    requires { Shows (λ part x y. white) area.now canvas.old }
    ensures { Shows (λ part x y. lined (on_columns COLUMNS x y)) area.now canvas.new }
{
    let first = area.posx() / CELL_WIDTH;
    let end = (area.posx() + area.tilewidth() - 1) / CELL_WIDTH + 1;
    for col in first..end.min(COLUMNS) {
        canvas.fill_rect(area, &column_line(col), GREY);
    }
}

// Draws the lines of the rows that the area meets.
fn draw_rows(canvas: &mut Canvas, area: &Area)
    requires { Shows (λ part x y. lined (on_columns COLUMNS x y)) area.now canvas.old }
    ensures { Shows (λ part x y. lined (on_edges x y)) area.now canvas.new }
{
    let first = area.posy() / CELL_HEIGHT;
    let end = (area.posy() + area.tileheight() - 1) / CELL_HEIGHT + 1;
    for row in first..end.min(ROWS) {
        canvas.fill_rect(area, &row_line(row), GREY);
    }
}

// The line at the right edge of a column.
fn column_line(col: u32) -> Rect
    requires { col < COLUMNS }
    ensures { result ≡ column_line col }
{
    Rect {
        x: col * CELL_WIDTH + 945,
        y: 0,
        w: 15,
        h: PART_HEIGHT,
    }
}

// The line at the lower edge of a row.
fn row_line(row: u32) -> Rect
    requires { row < ROWS }
    ensures { result ≡ row_line row }
{
    Rect {
        x: 0,
        y: row * CELL_HEIGHT + 225,
        w: PART_WIDTH,
        h: 15,
    }
}

// Draws the texts in their cells, between lines or without any.
pub(crate) fn draw_texts(canvas: &mut Canvas, area: &Area, lines: bool, texts: &[ShownText])
    requires { Shows (λ part x y. lined (on_lines lines x y)) area.now canvas.old }
    ensures { Shows (λ part. cut_colour lines texts.now) area.now canvas.new }
{
    for shown in texts {
        draw_text(canvas, area, lines, shown);
    }
}

// Draws the text in its cell, between lines or without any.
fn draw_text(canvas: &mut Canvas, area: &Area, lines: bool, shown: &ShownText)
    requires width { area.now.width ≡ canvas.old.width }
    requires height { area.now.height ≡ canvas.old.height }
    ensures { (texts : List ShownText) → Shows (λ part. cut_colour lines texts) area.now canvas.old
        → Shows (λ part. cut_colour lines (texts ++ shown.now ∷ [])) area.now canvas.new }
{
    if shown.row >= ROWS || shown.col >= COLUMNS {
        return;
    }
    let cell = cell_within(lines, shown.row, shown.col);
    canvas.draw_text(area, cell.x + 30, cell.y + 60, &cell, shown.text.get());
}

// The points of a cell that no line takes.
fn cell_within(lines: bool, row: u32, col: u32) -> Rect
    requires row { row < ROWS }
    requires col { col < COLUMNS }
    ensures { result ≡ cell_within lines row col }
{
    Rect {
        x: col * CELL_WIDTH,
        y: row * CELL_HEIGHT,
        w: if lines { 945 } else { CELL_WIDTH },
        h: if lines { 225 } else { CELL_HEIGHT },
    }
}
