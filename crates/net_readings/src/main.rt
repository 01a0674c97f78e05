//! Reads lines, each a call on one of two nets in memory or on a yard in memory, makes the call and
//! prints what it answers. Events come in the order of the lines, over both nets.
//!
//! - `open NET LINK`, `say NET LINK TEXT`, `drop NET LINK`, `failnet NET LINK`, `live NET LINK`: what a
//!   script does.
//! - `take NET`, `give NET LINK TEXT`, `release NET LINK`, `adopt NET`: what a poll does. The link that
//!   was released last is adopted.
//! - `drain NET`: the frames that were sent.
//! - `yard ROOM`, `offer DOCUMENT TEXT`, `out NUMBER`, `held`, `full`: a yard.
#![tactic(auto)]

mod nets;
mod yards;

use crate::nets::Nets;
use crate::yards::play_yard;
use anyhow::Result;
use cool_base::TextOf;
use std::alloc::Global;
use yard_traits::HeldYard;

fn main(rt: HostRuntime) -> Result<()> {
    let mut nets = Nets::new(rt.alloc())?;
    let mut yard: HeldYard<TextOf> = HeldYard::new(rt.alloc(), 0)?;
    for line in rt.lines(rt.alloc()) {
        let line = line?;
        println!(rt; "{line}")?;
        let (form, rest) = line.split_once(' ').unwrap_or((line.as_str(), ""));
        let (first, rest) = rest.split_once(' ').unwrap_or((rest, ""));
        let number = first.parse::<u64>().unwrap_or(0);
        nets.play(&rt, form, number, rest)?;
        play_yard(&rt, &mut yard, form, number, rest)?;
    }
    Ok(())
}
