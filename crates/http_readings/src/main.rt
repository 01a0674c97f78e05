//! Reads lines about messages of HTTP, and prints what each of the four calls answers. Bytes are written
//! as `escapes` says, a text that isn't there as `-`.
//!
//! - `request BYTES`, `response BYTES`: what is read from a wire that gives these bytes, one, 7 and 4,096
//!   at a time, and then its end.
//! - `fronts request BYTES`, `fronts response BYTES`: how many proper fronts of the bytes are cut off.
//! - `long request COUNT TAIL`, `long response COUNT TAIL`: what is read of a message in so many chunks of
//!   one byte, each with 16,384 bytes of framing, and then the bytes of the tail, 4,096 at a time.
//! - `ask METHOD HOST TARGET LOCK OVERRIDE OLD BODY`: what is written of the request, and what is read of
//!   it where more comes behind it.
//! - `tell STATUS LOCK BODY`: the same of a response.
#![tactic(auto)]

mod escapes;
mod reads;
mod writes;

use crate::escapes::bytes_of;
use crate::reads::{Kind, fronts_cut, said, said_long};
use crate::writes::{asked, told};
use cool_base::{Memory, read_number};
use std::alloc::Global;
use std::io;

// What the line's call answers.
fn answer(alloc: Global, line: &str) -> Result<String, Memory> {
    let (word, rest) = line.split_once(' ').unwrap_or((line, ""));
    match word {
        "request" => said(alloc, Kind::Request, &bytes_of(alloc, rest)?),
        "response" => said(alloc, Kind::Response, &bytes_of(alloc, rest)?),
        "fronts" => fronts(alloc, rest),
        "long" => long(alloc, rest),
        "ask" => asked(alloc, rest),
        "tell" => told(alloc, rest),
        _ => Ok(String::from_str(alloc, "no such line")?),
    }
}

fn kind_of(word: &str) -> Kind {
    if word == "request" {
        Kind::Request
    } else {
        Kind::Response
    }
}

fn fronts(alloc: Global, line: &str) -> Result<String, Memory> {
    let (word, rest) = line.split_once(' ').unwrap_or((line, ""));
    fronts_cut(alloc, kind_of(word), &bytes_of(alloc, rest)?)
}

fn long(alloc: Global, line: &str) -> Result<String, Memory> {
    let (word, rest) = line.split_once(' ').unwrap_or((line, ""));
    let (count, tail) = rest.split_once(' ').unwrap_or((rest, ""));
    let count = read_number(count.as_bytes(), 4, 9_999).unwrap_or(0);
    said_long(alloc, kind_of(word), count, &bytes_of(alloc, tail)?)
}

fn main(rt: HostRuntime) -> io::Result<()> {
    for line in rt.lines(rt.alloc()) {
        let line = line?;
        println!(rt; "{line}")?;
        if line.is_empty() || line.starts_with('#') {
            continue;
        }
        match answer(rt.alloc(), line.as_str()) {
            Ok(said) => println!(rt; "  {said}")?,
            Err(Memory) => println!(rt; "  out of memory")?,
        }
    }
    Ok(())
}
