//! Letters of texts.
ghost use Rattle.std.specs.Prelude.{◌≡◌, ℕ, ◌+◌, ◌-◌, ◌*◌, ◌/◌, ◌^◌, ◌<◌, ◌≤◌, ◌&&◌, Bool, true, nat_eq, length};
ghost use Rattle.std.specs.Str.{chars};
ghost use Rattle.cool_base.specs.Points.{has_point};
ghost use Rattle.kit_trait.specs.Pictures.{x_at};
ghost use Rattle.bitmap_font.specs.Glyphs.{dot_of};
ghost use Rattle.tile_raster.specs.Painting.{IsPainted};
ghost use Rattle.tile_raster.specs.Lettering.{text_dot, black};
ghost use Rattle.tile_raster.specs.Bytes.{painting_on, AreSet, letter_dot};
ghost use Rattle.tile_raster.specs.Spans.{in_span};

use crate::fills::set_pixel;
use crate::spans::{Span, column_point, columns_of, row_point, rows_of};
use bitmap_font::dot;
use cool_base::Rect;
use tile_key::Area;

const BLACK: [u8; 4] = [0, 0, 0, 255];

// Gives black to the pixels of the area whose sampled point lies in the clip and on a dot of the text that
// begins at x, y.
pub(crate) fn write_letters(rgba: &mut [u8], area: &Area, x: u32, y: u32, clip: &Rect, text: &str)
    requires { length rgba.old ≡ 4 * (area.now.height * area.now.width) }
    ensures { IsPainted area.now (λ px py. has_point clip.now px py && text_dot x y (chars text.now) px py) black (painting_on area.now rgba.old) (painting_on area.now rgba.new) }
{
    let end = u64::from(clip.x + clip.w);
    let mut left = u64::from(x);
    for c in text.chars() {
        if left >= end {
            break;
        }
        write_letter(rgba, area, c, left, y, clip);
        left += 90;
    }
}

// Gives black to the pixels whose sampled point lies in the clip and on a dot of the letter, whose box
// begins at left, y.
fn write_letter(rgba: &mut [u8], area: &Area, c: char, left: u64, y: u32, clip: &Rect)
    requires size { length rgba.old ≡ 4 * (area.now.height * area.now.width) }
    requires left { left < 2 ^ 32 }
    ensures { IsPainted area.now (λ px py. has_point clip.now px py && letter_dot c left y px py) black (painting_on area.now rgba.old) (painting_on area.now rgba.new) }
{
    let y = u64::from(y);
    let right = (left + 90).min(u64::from(clip.x + clip.w));
    let bottom = (y + 120).min(u64::from(clip.y + clip.h));
    let columns = columns_of(area, left.max(u64::from(clip.x)), right);
    let rows = rows_of(area, y.max(u64::from(clip.y)), bottom);
    for j in rows.first..rows.end {
        let down = u64::from(row_point(area, j)) - y;
        write_row(rgba, area, j, columns, c, left, (down / 15) as u32);
    }
}

// Gives black to the pixels of these columns, all within the letter's box, in one row, which lies in the
// row of dots `dots`.
fn write_row(rgba: &mut [u8], area: &Area, row: u32, columns: Span, c: char, left: u64, dots: u32)
    requires size { length rgba.old ≡ 4 * (area.now.height * area.now.width) }
    requires row { row < area.now.height }
    requires order { columns.first ≤ columns.end }
    requires columns { columns.end ≤ area.now.width }
    requires within { (i : ℕ) → columns.first ≤ i → i < columns.end → (left ≤ x_at area.now i) × (x_at area.now i < left + 90) }
    requires dots { dots < 8 }
    ensures { AreSet area.now (λ i j. nat_eq j row && (in_span columns.first columns.end i && dot_of c ((x_at area.now i - left) / 15) dots)) black rgba.old rgba.new }
{
    let start = row as usize * area.width() as usize;
    for i in columns.first..columns.end {
        let across = u64::from(column_point(area, i)) - left;
        let inked = dot(c, (across / 15) as u32, dots);
        set_pixel(rgba, start + i as usize, inked, BLACK);
    }
}
