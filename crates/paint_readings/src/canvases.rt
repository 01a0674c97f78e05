//! Canvases from strokes that lines say.
ghost use Rattle.std.specs.Prelude.{◌≡◌};

use cool_base::Rect;
use kit_trait::Pixels;
use std::alloc::Global;
use std::io::Print;
use tile_key::{Area, TileWords};
use tile_raster::Canvas;

/// The area that six numbers name: pixels, place, twips.
pub fn area_of(rest: &str) -> Option<Area> {
    let (numbers, _) = numbers_of(rest);
    Area::read(&TileWords {
        part: 3,
        width: numbers[0],
        height: numbers[1],
        tileposx: numbers[2],
        tileposy: numbers[3],
        tilewidth: numbers[4],
        tileheight: numbers[5],
        nviewid: 0,
    })
}

// The first seven numbers of the text, 0 where a word is none, and what stands behind them.
fn numbers_of(text: &str) -> ([u32; 7], &str) {
    let mut numbers = [0; 7];
    let mut rest = text;
    for place in 0..7 {
        let (word, behind) = rest.split_once(' ').unwrap_or((rest, ""));
        numbers[place] = word.parse().unwrap_or(0);
        rest = behind;
    }
    (numbers, rest)
}

/// The pixels of a canvas for the area after these strokes in order.
pub fn paint(alloc: Global, area: &Area, strokes: &[String]) -> anyhow::Result<Pixels> {
    let mut canvas = Canvas::new(alloc, area.width(), area.height())?;
    for stroke in strokes {
        let (word, rest) = stroke.split_once(' ').unwrap_or((stroke.as_str(), ""));
        let (numbers, text) = numbers_of(rest);
        match word {
            "fill" => fill(&mut canvas, area, numbers),
            _ => write(alloc, &mut canvas, area, numbers, text)?,
        }
    }
    Ok(canvas.finish()?)
}

// Fills the rectangle of the first four numbers, where it is one, with the colour of the other three.
fn fill(canvas: &mut Canvas, area: &Area, numbers: [u32; 7])
    requires width { area.now.width ≡ canvas.old.width }
    requires height { area.now.height ≡ canvas.old.height }
    ensures width { canvas.new.width ≡ canvas.old.width }
    ensures height { canvas.new.height ≡ canvas.old.height }
{
    if let Some(rect) = rect_of(numbers[0], numbers[1], numbers[2], numbers[3]) {
        let [_, _, _, _, red, green, blue] = numbers;
        let colour = [byte_of(red), byte_of(green), byte_of(blue), 255];
        canvas.fill_rect(area, &rect, colour);
    }
}

fn byte_of(number: u32) -> u8 {
    (number % 256) as u8
}

// Writes the text as often as the first number says, at the place of the next two, cut by the rectangle
// of the other four.
fn write(
    alloc: Global,
    canvas: &mut Canvas,
    area: &Area,
    numbers: [u32; 7],
    text: &str,
) -> anyhow::Result<()>
    requires width { area.now.width ≡ canvas.old.width }
    requires height { area.now.height ≡ canvas.old.height }
    ensures width { canvas.new.width ≡ canvas.old.width }
    ensures height { canvas.new.height ≡ canvas.old.height }
{
    let letters = text.repeat(alloc, numbers[0].min(1_000) as usize)?;
    if let Some(clip) = rect_of(numbers[3], numbers[4], numbers[5], numbers[6]) {
        canvas.draw_text(area, numbers[1], numbers[2], &clip, letters.as_str());
    }
    Ok(())
}

// The rectangle of four numbers, where both sums are below 2^32.
fn rect_of(x: u32, y: u32, w: u32, h: u32) -> Option<Rect> {
    if w > u32::MAX - x || h > u32::MAX - y {
        return None;
    }
    Some(Rect { x, y, w, h })
}

/// Prints a sign for each pixel, row by row.
pub fn show(rt: &impl Print, pixels: &Pixels) -> anyhow::Result<()> {
    println!(rt; "  {} by {}", pixels.width, pixels.height)?;
    let across = (4 * pixels.width as usize).max(4);
    for row in pixels.rgba.chunks(across) {
        print!(rt; "  ")?;
        for pixel in row.chunks(4) {
            print!(rt; "{}", sign_of(pixel))?;
        }
        println!(rt)?;
    }
    Ok(())
}

/// Prints how many pixels there are of each sign.
pub fn count(rt: &impl Print, pixels: &Pixels) -> anyhow::Result<()> {
    for sign in ['#', '+', 'o', '.', '?'] {
        let found = pixels
            .rgba
            .chunks(4)
            .filter(|pixel| sign_of(pixel) == sign)
            .count();
        println!(rt; "  {sign} {found}")?;
    }
    Ok(())
}

// `#` for black, `+` for grey, `o` for a colour of three shades, `.` for white, `?` for any other colour.
fn sign_of(pixel: &[u8]) -> char {
    match pixel {
        [0, 0, 0, 255] => '#',
        [192, 192, 192, 255] => '+',
        [1, 2, 3, 255] => 'o',
        [255, 255, 255, 255] => '.',
        _ => '?',
    }
}
