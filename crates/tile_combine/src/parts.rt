//! `cut`.
ghost use Rattle.std.specs.Prelude.{◌≡◌, ℕ, ◌+◌, ◌*◌, ◌≤◌, length, map, IfOk};
ghost use Rattle.tile_key.specs.Places.{IsArea, place_of_keys};
ghost use Rattle.kit_trait.specs.Pictures.{Colour};
ghost use Rattle.tile_combine.specs.Parts.{HasSize, part_at, parts_from, picture_in};

use bytes::Bytes;
use cool_base::Memory;
use kit_trait::Pixels;
use std::alloc::Global;
use tile_key::{Group, TileKey};

/// The parts of the group's picture that its keys have, in their order. The parts of the picture of the
/// group's place are the pictures of its keys.
#[tactic(auto, using(crate::proofs::PartFacts::parts_facts))]
pub fn cut(alloc: Global, group: &Group, pixels: &Pixels) -> Result<Vec<Pixels>, Memory>
    requires size { HasSize (place_of_keys group.now) pixels.now }
    ensures parts { IfOk result (λ parts. parts.items ≡ parts_from pixels.now 0 group.now) }
    ensures pictures { IfOk result (λ parts. (colour : ℕ → ℕ → ℕ → ℕ → Colour) → pixels.now ≡ picture_in colour (place_of_keys group.now) → parts.items ≡ map (picture_in colour) group.now) }
{
    let area = group.area();
    let (width, height) = (area.width(), area.height());
    let mut parts = Vec::new(alloc);
    let mut left = 0;
    for key in group.keys() {
        parts.push(part_at(alloc, pixels, left, key, width, height)?)?;
        left += key.width();
    }
    Ok(parts)
}

// The part that the key has of a picture of this width and height, from the column `left` on.
#[tactic(auto, unfolding(crate::specs::Parts::columns), using(crate::proofs::RowFacts::row_within))]
fn part_at(
    alloc: Global,
    pixels: &Pixels,
    left: u32,
    key: &TileKey,
    width: u32,
    height: u32,
) -> Result<Pixels, Memory>
    requires bytes { length pixels.now.rgba ≡ 4 * (height * width) }
    requires width { width ≡ pixels.now.width }
    requires few { width ≤ 2048 }
    requires columns { left + key.now.width ≤ width }
    requires rows { height ≡ key.now.height }
    ensures { IfOk result (λ part. part ≡ part_at pixels.now left key.now) }
{
    let bytes = pixels.rgba.as_slice();
    let count = 4 * key.width() as usize;
    let mut rgba = Vec::with_capacity(alloc, count * key.height() as usize)?;
    for row in 0..key.height() {
        let start = 4 * (row as usize * width as usize + left as usize);
        rgba.extend_from_slice(&bytes[start..start + count])?;
    }
    Ok(Pixels {
        width: key.width(),
        height: key.height(),
        rgba: Bytes::from_vec(rgba)?,
    })
}
