//! Reads lines, each a form and a text, and prints what the calls on messages, frames, words and numbers
//! make of the text.
//!
//! - `message TEXT`, `padded N TEXT` (the text and N blanks behind it), `bytes HEX`: what `read_message`
//!   makes of it, after the command that an error frame would name; of a message also what it is written
//!   as, and the keys that it asks for in a document of two parts.
//! - `line TEXT`, `picture N TEXT` (the text, a newline, and N newlines), `frame HEX`: what `read_frame`
//!   makes of it, and whether it is written as the same bytes.
//! - `number`, `list`, `words`, `cut`, `percent`, `command`, `file`, `token` and a text: the calls of
//!   `cool_base` and `cool_words`; `memory`: the words for want of memory.
#![tactic(auto)]

mod frames;
mod messages;
mod words;

use crate::frames::show_frame;
use crate::messages::show_message;
use crate::words::{
    show_list, show_memory, show_number, show_parts, show_token, show_word, show_words,
};
use anyhow::Result;
use std::alloc::Global;

fn main(rt: HostRuntime) -> Result<()> {
    for line in rt.lines(rt.alloc()) {
        let line = line?;
        println!(rt; "{line}")?;
        let (form, text) = line.split_once(' ').unwrap_or((line.as_str(), ""));
        show(&rt, form, text)?;
    }
    Ok(())
}

// Prints what the calls make of a text in this form.
fn show(rt: &HostRuntime, form: &str, text: &str) -> Result<()> {
    let alloc = rt.alloc();
    match form {
        "message" => show_message(rt, text.as_bytes()),
        "padded" => show_message(rt, &padded(alloc, text, b"", b' ')?),
        "bytes" => show_message(rt, &hex::decode(alloc, text)?),
        "line" => show_frame(rt, text.as_bytes()),
        "picture" => show_frame(rt, &padded(alloc, text, b"\n", b'\n')?),
        "frame" => show_frame(rt, &hex::decode(alloc, text)?),
        "number" => show_number(rt, text.as_bytes()),
        "list" => show_list(rt, text),
        "words" => show_words(rt, text),
        "cut" => show_parts(rt, text),
        "percent" | "command" | "file" => show_word(rt, form, text),
        "token" => show_token(rt, text),
        "memory" => show_memory(rt),
        _ => Ok(()),
    }
}

// What stands behind the number at the front of the text, with these bytes and as many pads behind it.
fn padded(alloc: Global, text: &str, behind: &[u8], pad: u8) -> Result<Vec<u8>> {
    let (number, front) = text.split_once(' ').unwrap_or((text, ""));
    let count = cool_base::read_u31(number.as_bytes()).unwrap_or(0);
    let mut bytes = Vec::from_slice(alloc, front.as_bytes())?;
    bytes.extend_from_slice(behind)?;
    for _ in 0..count {
        bytes.push(pad)?;
    }
    Ok(bytes)
}
