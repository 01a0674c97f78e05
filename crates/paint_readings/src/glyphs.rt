//! Glyphs as pictures of dots.
use bitmap_font::dot;
use std::io::Print;

/// Prints the eight rows of six dots of each character, `#` for a dot.
pub fn show_glyphs(rt: &impl Print, numbers: &str) -> anyhow::Result<()> {
    for number in numbers.split(' ') {
        match char::from_u32(number.parse().unwrap_or(0)) {
            Some(character) => show_dots(rt, character)?,
            None => println!(rt; "  no character")?,
        }
    }
    Ok(())
}

// The rows of one character.
fn show_dots(rt: &impl Print, character: char) -> anyhow::Result<()> {
    println!(rt; "  {}", character as u32)?;
    for y in 0..8 {
        print!(rt; "  ")?;
        for x in 0..6 {
            print!(rt; "{}", if dot(character, x, y) { '#' } else { '.' })?;
        }
        println!(rt)?;
    }
    Ok(())
}
