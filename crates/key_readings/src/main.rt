//! Reads lines, each a form and numbers below 2^32, and prints what the calls on keys, areas, zooms and
//! rectangles make of the numbers. Numbers of another count, or ones that no type takes, are no case.
//!
//! - `key PART WIDTH HEIGHT POSX POSY TILEWIDTH TILEHEIGHT NVIEWID`: `key_of`, `rect_of`, the area of the
//!   key's group, and `Area::read`.
//! - `order` and twice these eight: how two keys stand in key order.
//! - `zoom PIXELW PIXELH TWIPW TWIPH NVIEWID`: `Zoom::read`.
//! - `visible PART`, a zoom, an area `X Y W H` and a size `W H`: how many keys a view sees, the first and
//!   the last of them.
//! - `rects` and two rectangles `X Y W H`: `meets` and `cut`.
#![tactic(auto)]

mod keys;
mod views;

use crate::keys::{show_key, show_order};
use crate::views::{show_rects, show_visible, show_zoom};
use anyhow::Result;
use std::alloc::Global;

fn main(rt: HostRuntime) -> Result<()> {
    for line in rt.lines(rt.alloc()) {
        let line = line?;
        println!(rt; "{line}")?;
        let (form, text) = line.split_once(' ').unwrap_or((line.as_str(), ""));
        show(&rt, form, &numbers(rt.alloc(), text)?)?;
    }
    Ok(())
}

// The numbers of the text, as far as they are below 2^32.
fn numbers(alloc: Global, text: &str) -> Result<Vec<u32>> {
    let mut numbers = Vec::new(alloc);
    for word in text.split(' ') {
        if let Ok(number) = word.parse::<u32>() {
            numbers.push(number)?;
        }
    }
    Ok(numbers)
}

// Prints what the calls make of the numbers in this form.
fn show(rt: &HostRuntime, form: &str, numbers: &[u32]) -> Result<()> {
    match form {
        "key" => show_key(rt, numbers),
        "order" => show_order(rt, numbers),
        "zoom" => show_zoom(rt, numbers),
        "visible" => show_visible(rt, numbers),
        "rects" => show_rects(rt, numbers),
        _ => Ok(()),
    }
}
