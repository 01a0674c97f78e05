//! The documents that the lines are about.
use crate::files::{long_file, read_by};
use kit_trait::{Kit, LoadFault, PatchKit, PatchScene};
use sheet_kit::{SheetKit, SheetScene};
use std::alloc::Global;

/// The document of the last file that was loaded, with the scene that is kept.
#[derive(Drop)]
pub enum Document {
    None,
    Patch(PatchKit, Option<PatchScene>),
    Sheet(SheetKit, Option<SheetScene>),
}

/// The document that the line loads; None where it loads none.
pub fn open(alloc: Global, word: &str, rest: &str) -> Option<Result<Document, LoadFault>> {
    match word {
        "patch" => Some(patch(alloc, rest)),
        "sheet" => Some(sheet(alloc, rest)),
        "long" => Some(long(alloc, rest)),
        "readers" => Some(readers(alloc, rest)),
        _ => None,
    }
}

// So many bytes of one colour as a patch document.
fn patch(alloc: Global, rest: &str) -> Result<Document, LoadFault> {
    let (count, colour) = rest.split_once(' ').unwrap_or((rest, "0"));
    let colour = (number_of(colour) % 256) as u8;
    let file = Vec::from_elem(alloc, colour, number_of(count).min(1_000) as usize)?;
    let kit = PatchKit::load(alloc, file.as_slice())?;
    Ok(Document::Patch(kit, None))
}

// The text as a sheet document, a bar for each newline.
fn sheet(alloc: Global, rest: &str) -> Result<Document, LoadFault> {
    let mut file = Vec::with_capacity(alloc, rest.len())?;
    for byte in rest.as_bytes() {
        file.push(if *byte == b'|' { b'\n' } else { *byte })?;
    }
    let kit = SheetKit::load(alloc, file.as_slice())?;
    Ok(Document::Sheet(kit, None))
}

// Many long texts as a sheet document.
fn long(alloc: Global, rest: &str) -> Result<Document, LoadFault> {
    let (count, last) = rest.split_once(' ').unwrap_or((rest, "1"));
    let file = long_file(alloc, number_of(count), number_of(last))?;
    let kit = SheetKit::load(alloc, file.as_bytes())?;
    Ok(Document::Sheet(kit, None))
}

// A cell that many others read as a sheet document.
fn readers(alloc: Global, rest: &str) -> Result<Document, LoadFault> {
    let file = read_by(alloc, number_of(rest))?;
    let kit = SheetKit::load(alloc, file.as_bytes())?;
    Ok(Document::Sheet(kit, None))
}

/// The number, 0 where the word is none.
pub fn number_of(word: &str) -> u32 {
    word.parse().unwrap_or(0)
}
