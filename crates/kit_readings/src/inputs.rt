//! Lines that are inputs.
use crate::documents::number_of;
use cool_base::ViewId;
use kit_trait::{Damage, Input, Kit, What};
use std::alloc::Global;
use std::io::Print;

/// Gives the document the inputs of the line and prints what each damages.
pub fn give<K: Kit>(
    rt: &impl Print,
    alloc: Global,
    kit: &mut K,
    word: &str,
    rest: &str,
) -> anyhow::Result<()> {
    let (view, rest) = number_first(rest);
    let (part, rest) = number_first(rest);
    match word {
        "key" => press(rt, alloc, kit, view, part, rest),
        "mouse" => click(rt, alloc, kit, view, part, rest),
        _ => enter(rt, alloc, kit, view, part, rest),
    }
}

// The word that the text begins with, as a number, and what stands behind it.
fn number_first(text: &str) -> (u32, &str) {
    let (word, rest) = text.split_once(' ').unwrap_or((text, ""));
    (number_of(word), rest)
}

// A key with a char and a code.
fn press<K: Kit>(
    rt: &impl Print,
    alloc: Global,
    kit: &mut K,
    view: u32,
    part: u32,
    rest: &str,
) -> anyhow::Result<()> {
    let (chr, code) = number_first(rest);
    let code = number_of(code);
    send(rt, alloc, kit, view, part, What::Key { chr, code })
}

// A click at a point.
fn click<K: Kit>(
    rt: &impl Print,
    alloc: Global,
    kit: &mut K,
    view: u32,
    part: u32,
    rest: &str,
) -> anyhow::Result<()> {
    let (x, y) = number_first(rest);
    let what = What::Mouse {
        x,
        y: number_of(y),
        count: 1,
        buttons: 1,
        modifier: 0,
    };
    send(rt, alloc, kit, view, part, what)
}

// A key for each character.
fn enter<K: Kit>(
    rt: &impl Print,
    alloc: Global,
    kit: &mut K,
    view: u32,
    part: u32,
    text: &str,
) -> anyhow::Result<()> {
    for character in text.chars() {
        let chr = character as u32;
        send(rt, alloc, kit, view, part, What::Key { chr, code: 0 })?;
    }
    Ok(())
}

// Gives the document one input and prints its damage.
fn send<K: Kit>(
    rt: &impl Print,
    alloc: Global,
    kit: &mut K,
    view: u32,
    part: u32,
    what: What,
) -> anyhow::Result<()> {
    if part >= kit.parts() {
        return Ok(println!(rt; "  no such part")?);
    }
    let view = ViewId(view);
    let damage = kit.input(alloc, &Input { view, part, what })?;
    tell(rt, damage.as_slice())
}

// Prints the rectangles on one line.
fn tell(rt: &impl Print, damage: &[Damage]) -> anyhow::Result<()> {
    print!(rt; "  {} damaged", damage.len())?;
    for hurt in damage {
        let (x, y, w, h) = (hurt.rect.x, hurt.rect.y, hurt.rect.w, hurt.rect.h);
        print!(rt; "; {x} {y} {w} {h}")?;
    }
    Ok(println!(rt)?)
}
