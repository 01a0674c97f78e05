//! Pixels of one colour.
ghost use Rattle.std.specs.Prelude.{◌≡◌, ℕ, ◌+◌, ◌*◌, ◌<◌, ◌≤◌, ◌&&◌, Bool, true, nat_eq, length};
ghost use Rattle.cool_base.specs.Points.{has_point};
ghost use Rattle.tile_raster.specs.Painting.{IsPainted, colour_of};
ghost use Rattle.tile_raster.specs.Bytes.{painting_on, IsSet, AreSet};
ghost use Rattle.tile_raster.specs.Spans.{in_span};

use crate::spans::{Span, columns_of, rows_of};
use cool_base::Rect;
use tile_key::Area;

// Gives the colour to the pixels of the area whose sampled point lies in the rectangle.
pub(crate) fn fill_points(rgba: &mut [u8], area: &Area, rect: &Rect, colour: [u8; 4])
    requires { length rgba.old ≡ 4 * (area.now.height * area.now.width) }
    ensures { IsPainted area.now (has_point rect.now) (colour_of colour) (painting_on area.now rgba.old) (painting_on area.now rgba.new) }
{
    let columns = columns_of(area, u64::from(rect.x), u64::from(rect.x + rect.w));
    let rows = rows_of(area, u64::from(rect.y), u64::from(rect.y + rect.h));
    for j in rows.first..rows.end {
        fill_row(rgba, area, j, columns, colour);
    }
}

// Gives the colour to the pixels of these columns in one row.
fn fill_row(rgba: &mut [u8], area: &Area, row: u32, columns: Span, colour: [u8; 4])
    requires size { length rgba.old ≡ 4 * (area.now.height * area.now.width) }
    requires row { row < area.now.height }
    requires order { columns.first ≤ columns.end }
    requires columns { columns.end ≤ area.now.width }
    ensures { AreSet area.now (λ i j. nat_eq j row && in_span columns.first columns.end i) (colour_of colour) rgba.old rgba.new }
{
    let start = row as usize * area.width() as usize;
    for i in columns.first..columns.end {
        set_pixel(rgba, start + i as usize, true, colour);
    }
}

// Gives the colour to pixel n if `is` says so.
pub(crate) fn set_pixel(rgba: &mut [u8], n: usize, is: bool, colour: [u8; 4])
    requires { 4 * n + 4 ≤ length rgba.old }
    ensures { IsSet n is (colour_of colour) rgba.old rgba.new }
{
    if !is {
        return;
    }
    rgba[4 * n] = colour[0];
    rgba[4 * n + 1] = colour[1];
    rgba[4 * n + 2] = colour[2];
    rgba[4 * n + 3] = colour[3];
}
