//! Reads lines of acts on one store over a host in memory, and prints each line, and below it what
//! its call answers. `begin` begins with a new store at moment 0, whose host has no file; `end`
//! ends with it. Lines with a `#` at their head are printed as they are. A content without a byte
//! is `-`.
//!
//! - `file ID CONTENT`, `content ID`, `lock ID OWNER`, `clear ID`: the host's own calls. An owner
//!   is `x`, `cool-d` or `two words`.
//! - `time SECONDS`, `fail N`: the moment, and how many of the next wires fail.
//! - `admit ID TOKEN`, `fetch ID TOKEN rw`, `fetch ID TOKEN ro`, `put ID TOKEN NUMBER CONTENT`,
//!   `refresh ID TOKEN`, `unlock ID TOKEN`: the calls of a store. A fault is told by its name, a
//!   conflict with the lock's id, a receipt by its file and its content.
#![tactic(auto)]

mod acts;
mod answers;

use crate::acts::act;
use cool_base::Memory;
use host_store::HostStore;
use std::alloc::Global;
use std::io;
use wopi_host::{Host, MemoryKeeper};

// A store over a host without files.
fn begun(alloc: Global) -> Result<HostStore, Memory> {
    let Ok(host) = Host::new(alloc, MemoryKeeper::new(alloc)) else {
        return Err(Memory);
    };
    HostStore::new(alloc, host, 0)
}

// What the act answers.
fn answer(alloc: Global, store: &mut Option<HostStore>, line: &str) -> Result<String, Memory> {
    match store {
        Some(store) => act(alloc, store, line),
        None => Ok(String::from_str(alloc, "no store")?),
    }
}

fn main(rt: HostRuntime) -> io::Result<()> {
    let alloc = rt.alloc();
    let mut store = None;
    for line in rt.lines(alloc) {
        let line = line?;
        println!(rt; "{line}")?;
        if line.is_empty() || line.starts_with('#') {
            continue;
        }
        if line.as_str() == "begin" {
            store = begun(alloc).ok();
            continue;
        }
        if line.as_str() == "end" {
            store = None;
            continue;
        }
        match answer(alloc, &mut store, line.as_str()) {
            Ok(said) => println!(rt; "  {said}")?,
            Err(Memory) => println!(rt; "  out of memory")?,
        }
    }
    Ok(())
}
