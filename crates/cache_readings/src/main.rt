//! Reads lines, each a form and numbers below 2^32, and prints what the calls on groups of tiles make of
//! the numbers. Numbers that no type takes are no case.
//!
//! - `combine` and eight numbers for each key, `PART WIDTH HEIGHT POSX POSY TILEWIDTH TILEHEIGHT NVIEWID`:
//!   for each group how many keys it has, and the words of its area.
//! - `cut WIDTH HEIGHT COUNT`: so many keys of this size side by side, and for each part of a picture of
//!   their groups, whose bytes count up to 250 again and again, its size and a sum of its bytes.
#![tactic(auto)]

mod cuts;
mod groups;

use crate::cuts::show_cut;
use crate::groups::show_groups;
use anyhow::Result;
use std::alloc::Global;

fn main(rt: HostRuntime) -> Result<()> {
    for line in rt.lines(rt.alloc()) {
        let line = line?;
        println!(rt; "{line}")?;
        let (form, text) = line.split_once(' ').unwrap_or((line.as_str(), ""));
        show(&rt, form, &numbers(rt.alloc(), text)?)?;
    }
    Ok(())
}

// The numbers of the text, as far as they are below 2^32.
fn numbers(alloc: Global, text: &str) -> Result<Vec<u32>> {
    let mut numbers = Vec::new(alloc);
    for word in text.split(' ') {
        if let Ok(number) = word.parse::<u32>() {
            numbers.push(number)?;
        }
    }
    Ok(numbers)
}

// Prints what the calls make of the numbers in this form.
fn show(rt: &HostRuntime, form: &str, numbers: &[u32]) -> Result<()> {
    match form {
        "combine" => show_groups(rt, numbers),
        "cut" => show_cut(rt, numbers),
        _ => Ok(()),
    }
}
