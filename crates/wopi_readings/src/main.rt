//! Reads lines about a host of files and its client, and prints what each call answers. A word that
//! isn't there is `-`. One host over a keeper in memory serves all lines.
//!
//! - `GET NOW TARGET OVERRIDE LOCK OLD BODY`, also `POST` and `OTHER`: the response, as status,
//!   lock and body.
//! - `file NAME CONTENT`, `content NAME`, `lock NAME NOW`, `free NAME`: the host's own calls; the
//!   lock that is set is `x`.
//! - `request OPERATION`: what the client sends for `check`, `get`, `lock`, `refresh`, `unlock` and
//!   `put`.
//! - `understand OPERATION STATUS LOCK BODY`: what the client reads in that response.
#![tactic(auto)]

mod asks;
mod hosts;
mod words;

use crate::asks::{requested, understood};
use crate::hosts::{MemoryHost, answered, content, filed, freed, locked};
use cool_base::Memory;
use http_message::Method;
use std::alloc::Global;
use std::io;
use wopi_host::{Host, MemoryKeeper};

// What the line's call answers.
fn answer(alloc: Global, host: &mut MemoryHost, line: &str) -> Result<String, Memory> {
    let (word, rest) = line.split_once(' ').unwrap_or((line, ""));
    match word {
        "GET" => answered(alloc, host, Method::Get, rest),
        "POST" => answered(alloc, host, Method::Post, rest),
        "OTHER" => answered(alloc, host, Method::Other, rest),
        "file" => filed(alloc, host, rest),
        "content" => content(alloc, host, rest),
        "lock" => locked(alloc, host, rest),
        "free" => freed(alloc, host, rest),
        "request" => requested(alloc, rest),
        "understand" => understood(alloc, rest),
        _ => Ok(String::from_str(alloc, "no such line")?),
    }
}

fn main(rt: HostRuntime) -> io::Result<()> {
    let alloc = rt.alloc();
    let Ok(mut host) = Host::new(alloc, MemoryKeeper::new(alloc)) else {
        return Ok(());
    };
    for line in rt.lines(alloc) {
        let line = line?;
        println!(rt; "{line}")?;
        if line.is_empty() || line.starts_with('#') {
            continue;
        }
        match answer(alloc, &mut host, line.as_str()) {
            Ok(said) => println!(rt; "  {said}")?,
            Err(Memory) => println!(rt; "  out of memory")?,
        }
    }
    Ok(())
}
