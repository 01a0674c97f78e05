//! Reads lines about a document and prints what its kit answers. `stdin` has the cases, and `stdout` what
//! an independent model answers to them (tests/model/sheet.py).
//!
//! - `patch COUNT COLOUR`, `sheet TEXT`, `long COUNT LAST`, `readers COUNT` load a file: so many bytes of
//!   this colour; the text, a bar for each newline; so many raw texts of 1,022 bytes and one of `LAST`
//!   bytes in A4096; one cell that so many others read.
//! - `key VIEW PART CHAR CODE`, `mouse VIEW PART X Y`, `type VIEW PART TEXT` are inputs, the last one key
//!   for each character: what each damages is printed.
//! - `tile PART WIDTH HEIGHT X Y TWIPS TWIPS NVIEWID` prints the picture of an area, a letter for each
//!   pixel; `cut` with the same words what its scene holds; `keep` keeps the scene, and `kept` says
//!   whether one cut now is equal to it, and prints the picture of its copy.
//! - `save` prints the file, `about` the kind of document with its parts.
#![tactic(auto)]

mod documents;
mod files;
mod inputs;
mod scenes;

use crate::documents::{Document, open};
use crate::inputs::give;
use crate::scenes::show;
use kit_trait::{Kit, KitName};
use std::alloc::Global;
use std::fmt::Debug;
use std::io::Print;

fn main(rt: HostRuntime) -> anyhow::Result<()> {
    let mut document = Document::None;
    for line in rt.lines(rt.alloc()) {
        let line = line?;
        if line.is_empty() || line.starts_with('#') {
            continue;
        }
        println!(rt; "{line}")?;
        let (word, rest) = line.split_once(' ').unwrap_or((line.as_str(), ""));
        match open(rt.alloc(), word, rest) {
            Some(Ok(opened)) => document = opened,
            Some(Err(fault)) => println!(rt; "  {fault}")?,
            None => answer(&rt, rt.alloc(), &mut document, word, rest)?,
        }
    }
    Ok(())
}

// Does what the line says with the document.
fn answer(
    rt: &impl Print,
    alloc: Global,
    document: &mut Document,
    word: &str,
    rest: &str,
) -> anyhow::Result<()> {
    match document {
        Document::None => Ok(println!(rt; "  no document")?),
        Document::Patch(kit, kept) => act(rt, alloc, kit, kept, word, rest),
        Document::Sheet(kit, kept) => act(rt, alloc, kit, kept, word, rest),
    }
}

// The same with a document of either kind.
fn act<K: Kit>(
    rt: &impl Print,
    alloc: Global,
    kit: &mut K,
    kept: &mut Option<K::Scene>,
    word: &str,
    rest: &str,
) -> anyhow::Result<()>
where
    K::Scene: Debug,
{
    match word {
        "key" | "mouse" | "type" => give(rt, alloc, kit, word, rest),
        "tile" | "cut" | "keep" | "kept" => show(rt, alloc, kit, kept, word, rest),
        "save" => save(rt, alloc, kit),
        "about" => tell(rt, kit),
        _ => Ok(println!(rt; "  no such line")?),
    }
}

// Prints the file: its length and, of the last 600 bytes, each character, a bar for each newline and a
// point for what isn't printable.
fn save<K: Kit>(rt: &impl Print, alloc: Global, kit: &mut K) -> anyhow::Result<()> {
    let file = kit.save_text(alloc)?;
    let skipped = file.len().saturating_sub(600);
    let text = String::from_utf8_lossy(alloc, &file.as_slice()[skipped..])?;
    print!(rt; "  {} bytes: ", file.len())?;
    for character in text.chars() {
        match character {
            '\n' => print!(rt; "|")?,
            '\0'..='\u{1f}' => print!(rt; ".")?,
            _ => print!(rt; "{character}")?,
        }
    }
    Ok(println!(rt)?)
}

// Prints the kind, the number of parts and the size of each.
fn tell<K: Kit>(rt: &impl Print, kit: &K) -> anyhow::Result<()> {
    let kind = match kit.name() {
        KitName::Patch => "patch",
        KitName::Sheet => "sheet",
    };
    println!(rt; "  {kind} of {} parts", kit.parts())?;
    for part in 0..kit.parts() {
        let size = kit.size(part);
        println!(rt; "  {part}: {} {}", size.w, size.h)?;
    }
    Ok(())
}
