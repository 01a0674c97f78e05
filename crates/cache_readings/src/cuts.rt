//! Parts of pictures.
ghost use Rattle.std.specs.Prelude.{IfOk};
ghost use Rattle.tile_combine.specs.Parts.{HasSize};

use anyhow::Result;
use bytes::Bytes;
use cool_base::Memory;
use kit_trait::Pixels;
use std::alloc::Global;
use tile_combine::{combine, cut};
use tile_key::{Area, TileKey, TileWords, key_of};

/// Prints the parts of a picture of keys side by side.
pub fn show_cut(rt: &HostRuntime, numbers: &[u32]) -> Result<()> {
    let [width, height, count] = numbers else {
        return Ok(());
    };
    let keys = row(rt.alloc(), *width, *height, *count)?;
    for group in combine(rt.alloc(), keys.as_slice())?.as_slice() {
        let pixels = picture(rt.alloc(), &group.area())?;
        for part in cut(rt.alloc(), group, &pixels)?.as_slice() {
            let (width, height) = (part.width, part.height);
            let sum = sum_of(part.rgba.as_slice());
            println!(rt; "  {width} {height} {sum}")?;
        }
    }
    Ok(())
}

// So many keys of this size side by side, at most 64.
fn row(alloc: Global, width: u32, height: u32, count: u32) -> Result<Vec<TileKey>> {
    let mut keys = Vec::new(alloc);
    for i in 0..count.min(64) {
        let words = TileWords {
            part: 0,
            width,
            height,
            tileposx: i * 240,
            tileposy: 480,
            tilewidth: 240,
            tileheight: 240,
            nviewid: 0,
        };
        if let Some(key) = key_of(&words) {
            keys.push(key)?;
        }
    }
    Ok(keys)
}

// A picture of the area's size whose bytes count up to 250 again and again.
fn picture(alloc: Global, area: &Area) -> Result<Pixels, Memory>
    ensures { IfOk result (HasSize area.now) }
{
    let (width, height) = (area.width(), area.height());
    let mut rgba = Vec::new(alloc);
    for i in 0..4 * (height * width) {
        rgba.push((i % 251) as u8)?;
    }
    Ok(Pixels {
        width,
        height,
        rgba: Bytes::from_vec(rgba)?,
    })
}

// The sum of the bytes, each times its place counted from 1, modulo 2^32.
fn sum_of(bytes: &[u8]) -> u32 {
    let mut sum = 0u32;
    let mut place = 0u32;
    for byte in bytes {
        place = place.wrapping_add(1);
        sum = sum.wrapping_add(place.wrapping_mul(u32::from(*byte)));
    }
    sum
}
