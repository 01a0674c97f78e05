//! Dots of characters.
ghost use Rattle.std.specs.Prelude.{◌≡◌, ℕ, ◌<◌, ◌≤◌, false, slice_index};
ghost use Rattle.bitmap_font.specs.Glyphs.{box, columns, glyph_of, dot_of};

use crate::glyphs::{BOX, GLYPHS};

/// Whether the glyph of the character has the dot in column x, 0 to 5 from the left, and row y, 0 to 7
/// from the top. It takes no memory.
#[tactic(auto, using(crate::proofs::GlyphFacts::glyphs))]
pub fn dot(c: char, x: u32, y: u32) -> bool
    requires column { x < 6 }
    requires row { y < 8 }
    ensures { result ≡ dot_of c x y }
{
    x < 5 && (column(c, x) >> y) & 1 == 1
}

// A column of the character's glyph.
fn column(c: char, x: u32) -> u8
    requires { x < 5 }
    ensures { result ≡ slice_index (glyph_of c) x }
{
    match c {
        ' '..='~' => glyphs()[c as usize - 32][x as usize],
        _ => BOX[x as usize],
    }
}

// The columns of the glyphs that are printed.
fn glyphs() -> &'static [[u8; 5]; 95]
    ensures { result.now ≡ GLYPHS }
{
    &GLYPHS
}

/// A law: no glyph has a dot in its last column, nor beyond it.
#[tactic(auto, using(crate::proofs::GlyphFacts::glyphs))]
pub fn the_last_column_is_empty()
    ensures { (c x y : ℕ) → 5 ≤ x → dot_of c x y ≡ false }
{}

/// A law: every character that isn't 32 to 126 has the box.
pub fn other_characters_are_boxes()
    ensures below { (c : ℕ) → c < 32 → glyph_of c ≡ columns box }
    ensures above { (c : ℕ) → 126 < c → glyph_of c ≡ columns box }
{}
