//! Reads lines, each an act on one cache of tiles, and prints what it answers. Key K is the tile of
//! one pixel and 15 by 15 twips in part K / 1000 and column K % 1000 of row 0. Lines with a `#` at
//! their head are printed as they are.
//!
//! - `begin`: a new cache.
//! - `job N KEYS..`: the keys' groups begin as jobs in the document after N inputs, and each tells
//!   its ticket; where one of its keys is current or out it isn't begun.
//! - `finish TICKET`: the job's pictures come. That of its key in place P, counted from 0, has the
//!   bytes TICKET % 256, P, 0 and 255.
//! - `damage PART X Y W H N`: input N damages the rectangle.
//! - `current KEY`, `is KEY`, `out KEY`, `jobs`: what the calls of these names answer.
#![tactic(auto)]

mod acts;
mod words;

use crate::acts::act;
use anyhow::Result;
use tile_cache::TileCache;

fn main(rt: HostRuntime) -> Result<()> {
    let mut cache = TileCache::new(rt.alloc())?;
    let mut tickets = Vec::new(rt.alloc());
    for line in rt.lines(rt.alloc()) {
        let line = line?;
        println!(rt; "{line}")?;
        if line.as_str() == "begin" {
            cache = TileCache::new(rt.alloc())?;
            tickets = Vec::new(rt.alloc());
            continue;
        }
        act(&rt, &mut cache, &mut tickets, line.as_str())?;
    }
    Ok(())
}
