//! Reads lines and plays them on a link over a stream in memory: what comes, how much the stream takes,
//! and what is given. What the link does is printed.
//!
//! - `link`: a new link, whose stream takes everything.
//! - `line TEXT`: the text and the end of a line come; `hex HEX`: these bytes come.
//! - `frame FIRST MASKED LENGTH BYTE`: a frame of so many equal bytes comes, FIRST and BYTE in hex, and
//!   MASKED 1 where it is masked.
//! - `end`: the stream ends. `room N`: the stream takes N bytes more, and then would wait.
//! - `give TEXT`: a frame is given. `tile N`: one of a tile with N bytes is given.
//! - `go`: the link does what it can. What it has sent is printed.
#![tactic(auto)]

mod pipe;
mod play;

use crate::play::Player;
use anyhow::Result;

fn main(rt: HostRuntime) -> Result<()> {
    let mut player = Player::new(rt.alloc());
    for line in rt.lines(rt.alloc()) {
        let line = line?;
        println!(rt; "{line}")?;
        let (form, rest) = line.split_once(' ').unwrap_or((line.as_str(), ""));
        player.play(&rt, form, rest)?;
    }
    Ok(())
}
