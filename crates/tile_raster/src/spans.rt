//! Which pixels of an area sample points from one place up to another.
ghost use Rattle.std.specs.Prelude.{◌≡◌, ℕ, ◌+◌, ◌*◌, ◌/◌, ◌^◌, ◌<◌, ◌≤◌, nat_lt};
ghost use Rattle.kit_trait.specs.Pictures.{x_at, y_at};
ghost use Rattle.tile_raster.specs.Spans.{in_span};

use tile_key::Area;

/// Columns or rows of pixels: from `first` up to, but without, `end`.
#[derive(Clone, Copy)]
pub(crate) struct Span {
    pub(crate) first: u32,
    pub(crate) end: u32,
}

// The columns of the area that sample a point from x = `from` up to x = `to`.
pub(crate) fn columns_of(area: &Area, from: u64, to: u64) -> Span
    requires from { from < 2 ^ 34 }
    requires to { to < 2 ^ 34 }
    ensures order { result.first ≤ result.end }
    ensures within { result.end ≤ area.now.width }
    ensures exact { (i : ℕ) → i < area.now.width → in_span result.first result.end i ≡ in_span from to (x_at area.now i) }
{
    span_of(area.posx(), area.tilewidth(), area.width(), from, to)
}

// The rows of the area that sample a point from y = `from` up to y = `to`.
pub(crate) fn rows_of(area: &Area, from: u64, to: u64) -> Span
    requires from { from < 2 ^ 34 }
    requires to { to < 2 ^ 34 }
    ensures order { result.first ≤ result.end }
    ensures within { result.end ≤ area.now.height }
    ensures exact { (j : ℕ) → j < area.now.height → in_span result.first result.end j ≡ in_span from to (y_at area.now j) }
{
    span_of(area.posy(), area.tileheight(), area.height(), from, to)
}

// The point that a column samples.
pub(crate) fn column_point(area: &Area, i: u32) -> u32
    requires { i < area.now.width }
    ensures { result ≡ x_at area.now i }
{
    point_of(area.posx(), area.tilewidth(), area.width(), i)
}

// The point that a row samples.
pub(crate) fn row_point(area: &Area, j: u32) -> u32
    requires { j < area.now.height }
    ensures { result ≡ y_at area.now j }
{
    point_of(area.posy(), area.tileheight(), area.height(), j)
}

// The point that pixel i of a row or column samples, which has so many pixels and twips.
fn point_of(pos: u32, twips: u32, pixels: u32, i: u32) -> u32
    requires pos { pos < 2 ^ 31 }
    requires twips { twips ≤ 491520 }
    requires pixels { pixels ≤ 2048 }
    requires within { i < pixels }
    ensures { result ≡ pos + i * twips / pixels }
{
    pos + i * twips / pixels
}

// The pixels that sample a point from `from` up to `to`.
fn span_of(pos: u32, twips: u32, pixels: u32, from: u64, to: u64) -> Span
    requires from { from < 2 ^ 34 }
    requires to { to < 2 ^ 34 }
    requires some_twips { 1 ≤ twips }
    requires some_pixels { 1 ≤ pixels }
    requires pixels { pixels ≤ 2048 }
    ensures order { result.first ≤ result.end }
    ensures within { result.end ≤ pixels }
    ensures exact { (i : ℕ) → i < pixels → in_span result.first result.end i ≡ in_span from to (pos + i * twips / pixels) }
{
    let first = first_from(pos, twips, pixels, from);
    let end = first_from(pos, twips, pixels, to);
    Span {
        first,
        end: end.max(first),
    }
}

// The first pixel that samples the edge or a point beyond it; the number of pixels where there is none.
fn first_from(pos: u32, twips: u32, pixels: u32, edge: u64) -> u32
    requires edge { edge < 2 ^ 34 }
    requires some_twips { 1 ≤ twips }
    requires some_pixels { 1 ≤ pixels }
    requires pixels { pixels ≤ 2048 }
    ensures within { result ≤ pixels }
    ensures exact { (i : ℕ) → i < pixels → nat_lt i result ≡ nat_lt (pos + i * twips / pixels) edge }
{
    let way = edge.saturating_sub(u64::from(pos));
    let pixels_before = (way * u64::from(pixels)).div_ceil(u64::from(twips));
    pixels_before.min(u64::from(pixels)) as u32
}
