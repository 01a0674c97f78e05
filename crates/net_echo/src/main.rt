//! A server for tests of the net over sockets: `net_echo PORT SESSIONS TAKES`. What a link says is given
//! back to it; `move` releases it and adopts it again, and `flood` gives it 64 tiles of 262,144 bytes. It
//! ends once so many links have left, or after so many takes, and prints what it took.
#![tactic(auto)]

use anyhow::{Result, anyhow};
use cool_base::LinkId;
use net_edge::EdgeNet;
use net_traits::{Given, Net, Taken};
use std::env;

/// How many bytes a tile of a flood has.
const TILE_SIZE: usize = 262_144;

/// How many tiles a flood has.
const TILES: u32 = 64;

/// What was taken, and which gives failed.
#[derive(Clone, Copy)]
struct Counts {
    opened: u64,
    said: u64,
    left: u64,
    failed: u64,
}

fn main(rt: HostRuntime) -> Result<()> {
    let mut words = [0; 3];
    let mut place = 0;
    for word in env::args(&rt)?.skip(1) {
        if place < 3 {
            words[place] = word.parse::<u64>().unwrap_or(0);
            place += 1;
        }
    }
    let [port, sessions, takes] = words;
    let port = u16::try_from(port).unwrap_or(0);
    let mut net = EdgeNet::listen(rt.alloc(), &rt, &rt, port, sessions)?;
    let counts = serve(&rt, &mut net, sessions, takes)?;
    println!(rt;
        "opened {}, said {}, left {}, failed {}",
        counts.opened, counts.said, counts.left, counts.failed
    )?;
    Ok(())
}

// Takes events and answers them.
fn serve<'a>(
    rt: &HostRuntime,
    net: &mut EdgeNet<'a, HostRuntime>,
    sessions: u64,
    takes: u64,
) -> Result<Counts> {
    let mut counts = Counts {
        opened: 0,
        said: 0,
        left: 0,
        failed: 0,
    };
    for _ in 0..takes {
        if sessions > 0 && counts.left >= sessions {
            return Ok(counts);
        }
        match net.take(rt.alloc())? {
            Taken::Opened(_) => counts.opened = counts.opened.saturating_add(1),
            Taken::Said(link, bytes) => {
                counts.said = counts.said.saturating_add(1);
                if !answer(rt, net, link, bytes.get())? {
                    counts.failed = counts.failed.saturating_add(1);
                    counts.left = counts.left.saturating_add(1);
                }
            }
            Taken::Left(_) => counts.left = counts.left.saturating_add(1),
            Taken::Nothing => {}
            Taken::Failed => return Err(anyhow!("a take failed")),
        }
    }
    Ok(counts)
}

// Answers a message. False where the link is lost.
fn answer<'a>(
    rt: &HostRuntime,
    net: &mut EdgeNet<'a, HostRuntime>,
    link: LinkId,
    bytes: &[u8],
) -> Result<bool> {
    if bytes == b"move".as_slice() {
        let Some(moved) = net.release(link) else {
            return Ok(false);
        };
        let link = net.adopt(rt.alloc(), moved)?;
        return Ok(net.give(rt.alloc(), link, b"moved")? == Given::Sent);
    }
    if bytes != b"flood".as_slice() {
        return Ok(net.give(rt.alloc(), link, bytes)? == Given::Sent);
    }
    let mut tile = Vec::from_slice(rt.alloc(), b"tile: ")?;
    tile.resize(TILE_SIZE, 7)?;
    for _ in 0..TILES {
        if net.give(rt.alloc(), link, &tile)? == Given::Failed {
            return Ok(false);
        }
    }
    Ok(true)
}
