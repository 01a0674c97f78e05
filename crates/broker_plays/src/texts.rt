//! Numbers in lines, frames as lines.
use cool_base::{Memory, read_u31};
use cool_frame::{Frame, write_frame};
use std::alloc::Global;
use tile_key::TileKey;

/// The numbers among the words of the text.
pub(crate) fn numbers(alloc: Global, text: &str) -> Result<Vec<u32>, Memory> {
    let mut numbers = Vec::new(alloc);
    for word in text.split(' ') {
        if let Some(number) = read_u31(word.as_bytes()) {
            numbers.push(number)?;
        }
    }
    Ok(numbers)
}

/// The number at this place, 0 where there is none.
pub(crate) fn at(numbers: &[u32], i: usize) -> u32 {
    numbers.get(i).copied().unwrap_or(0)
}

/// The line of a tile of the key that is sent to this view.
pub(crate) fn line_of_tile(
    alloc: Global,
    to: u32,
    key: &TileKey,
    version: u64,
    number: u64,
) -> Result<String, Memory> {
    let part = key.part();
    let (wide, high) = (key.width(), key.height());
    let (x, y) = (key.posx(), key.posy());
    let look = if key.nviewid() == 1 { " nviewid=1" } else { "" };
    Ok(format!(in alloc;
        "{to}: part {part} {wide}x{high} at {x},{y}{look} ver={version} wid={number}"
    )?)
}

/// A frame that is no tile, as it is written, for this view.
pub(crate) fn line_of_frame(alloc: Global, to: u32, frame: &Frame) -> Result<String, Memory> {
    let bytes = write_frame(alloc, frame)?;
    match String::from_utf8(bytes) {
        Ok(text) => Ok(format!(in alloc; "{to}: {text}")?),
        Err(_) => Ok(format!(in alloc; "{to}: no text")?),
    }
}

/// A letter for each pixel: white, grey, black or another colour.
pub(crate) fn letters(alloc: Global, pixels: &[u8]) -> Result<String, Memory> {
    let mut letters = String::new(alloc);
    for pixel in pixels.chunks(4) {
        letters.push(letter(pixel))?;
    }
    Ok(letters)
}

fn letter(pixel: &[u8]) -> char {
    match pixel {
        [255, 255, 255, 255] => 'W',
        [192, 192, 192, 255] => 'G',
        [0, 0, 0, 255] => 'B',
        _ => '?',
    }
}
