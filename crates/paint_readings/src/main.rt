//! Reads lines about glyphs and canvases and prints the dots and pixels that they have. `stdin` has the
//! cases, and `stdout` what an independent model answers to them (tests/model/sheet.py).
//!
//! - `glyph NUMBER..` prints the dots of the characters with these numbers.
//! - `area WIDTH HEIGHT X Y TWIPS TWIPS` begins a canvas for an area.
//! - `fill X Y WIDTH HEIGHT RED GREEN BLUE` fills a rectangle of it; `text COUNT X Y X Y WIDTH HEIGHT
//!   TEXT` writes a text so many times in a row, cut by a rectangle.
//! - `show` prints the pixels, a sign for each; `count` how many there are of each sign.
#![tactic(auto)]

mod canvases;
mod glyphs;

use crate::canvases::{area_of, count, paint, show};
use crate::glyphs::show_glyphs;
use std::alloc::Global;
use std::io::Print;
use tile_key::Area;

/// An area, and the strokes on its canvas in order.
#[derive(Drop)]
struct Sheet {
    area: Area,
    strokes: Vec<String>,
}

fn main(rt: HostRuntime) -> anyhow::Result<()> {
    let mut sheet = None;
    for line in rt.lines(rt.alloc()) {
        let line = line?;
        if line.is_empty() || line.starts_with('#') {
            continue;
        }
        println!(rt; "{line}")?;
        let (word, rest) = line.split_once(' ').unwrap_or((line.as_str(), ""));
        match word {
            "glyph" => show_glyphs(&rt, rest)?,
            "area" => sheet = begin(&rt, rt.alloc(), rest)?,
            _ => match &mut sheet {
                Some(sheet) => act(&rt, rt.alloc(), sheet, word, line.as_str())?,
                None => println!(rt; "  no canvas")?,
            },
        }
    }
    Ok(())
}

// A canvas without strokes.
fn begin(rt: &impl Print, alloc: Global, rest: &str) -> anyhow::Result<Option<Sheet>> {
    let Some(area) = area_of(rest) else {
        println!(rt; "  no area")?;
        return Ok(None);
    };
    let strokes = Vec::new(alloc);
    Ok(Some(Sheet { area, strokes }))
}

// Keeps a stroke, or prints what all of them make.
fn act(
    rt: &impl Print,
    alloc: Global,
    sheet: &mut Sheet,
    word: &str,
    line: &str,
) -> anyhow::Result<()> {
    match word {
        "show" => show(rt, &paint(alloc, &sheet.area, sheet.strokes.as_slice())?),
        "count" => count(rt, &paint(alloc, &sheet.area, sheet.strokes.as_slice())?),
        _ => {
            let stroke = String::from_str(alloc, line)?;
            Ok(sheet.strokes.push(stroke)?)
        }
    }
}
