//! Numbers, keys and rectangles in lines.
use anyhow::Result;
use cool_base::{Rect, read_u31};
use std::alloc::Global;
use tile_key::{TileKey, TileWords, key_of};

/// The numbers among the words of the text.
pub(crate) fn numbers(alloc: Global, text: &str) -> Result<Vec<u32>> {
    let mut numbers = Vec::new(alloc);
    for word in text.split(' ') {
        if let Some(number) = read_u31(word.as_bytes()) {
            numbers.push(number)?;
        }
    }
    Ok(numbers)
}

/// The number at this place, 0 where there is none.
pub(crate) fn at(numbers: &[u32], i: usize) -> u32 {
    numbers.get(i).copied().unwrap_or(0)
}

/// The key with this number.
pub(crate) fn key(number: u32) -> TileKey {
    let words = TileWords {
        part: number / 1_000,
        width: 1,
        height: 1,
        tileposx: number % 1_000 * 15,
        tileposy: 0,
        tilewidth: 15,
        tileheight: 15,
        nviewid: 0,
    };
    key_of(&words).unwrap_or_default()
}

/// The keys with the numbers behind the first one.
pub(crate) fn keys(alloc: Global, numbers: &[u32]) -> Result<Vec<TileKey>> {
    let mut keys = Vec::new(alloc);
    for i in 1..numbers.len() {
        keys.push(key(at(numbers, i)))?;
    }
    Ok(keys)
}

/// The rectangle of these four numbers, none of which is above 1,000,000.
pub(crate) fn rect(x: u32, y: u32, w: u32, h: u32) -> Option<Rect> {
    if x > 1_000_000 || y > 1_000_000 || w > 1_000_000 || h > 1_000_000 {
        return None;
    }
    Some(Rect { x, y, w, h })
}
