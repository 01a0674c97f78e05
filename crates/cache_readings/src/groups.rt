//! Groups of keys.
use anyhow::Result;
use std::alloc::Global;
use tile_combine::combine;
use tile_key::{TileKey, TileWords, key_of};

/// Prints the groups of the keys that the numbers name.
pub fn show_groups(rt: &HostRuntime, numbers: &[u32]) -> Result<()> {
    let keys = keys_of(rt.alloc(), numbers)?;
    for group in combine(rt.alloc(), keys.as_slice())?.as_slice() {
        let count = group.keys().len();
        let area = group.area();
        let (part, x, y) = (area.part(), area.posx(), area.posy());
        let (width, height) = (area.width(), area.height());
        let (across, down) = (area.tilewidth(), area.tileheight());
        let look = area.nviewid();
        println!(rt; "  {count}: {part} {width} {height} {x} {y} {across} {down} {look}")?;
    }
    Ok(())
}

// The keys that eight numbers each name.
fn keys_of(alloc: Global, numbers: &[u32]) -> Result<Vec<TileKey>> {
    let mut keys = Vec::new(alloc);
    let mut rest = numbers;
    for _ in 0..numbers.len() {
        let [
            part,
            width,
            height,
            tileposx,
            tileposy,
            tilewidth,
            tileheight,
            nviewid,
            others @ ..,
        ] = rest
        else {
            return Ok(keys);
        };
        let words = TileWords {
            part: *part,
            width: *width,
            height: *height,
            tileposx: *tileposx,
            tileposy: *tileposy,
            tilewidth: *tilewidth,
            tileheight: *tileheight,
            nviewid: *nviewid,
        };
        if let Some(key) = key_of(&words) {
            keys.push(key)?;
        }
        rest = others;
    }
    Ok(keys)
}
