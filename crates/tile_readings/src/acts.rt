//! Acts on a cache. Beside it stand the tickets of its keys out, one for each key, in their order.
ghost use Rattle.std.specs.Prelude.{◌≡◌, IsTrue, All, length, map, filter, not, nat_eq, IfOk, OnOk};
ghost use Rattle.std.specs.List.{AllByRecursion};
ghost use Rattle.tile_cache.specs.Calls.{IsFree};
ghost use Rattle.tile_readings.specs.Mirrors.{Mirrors, IsOne, IsDot};

use crate::words::{at, key, keys, numbers, rect};
use anyhow::Result;
use bytes::Bytes;
use cool_base::{Memory, Ticket};
use kit_trait::Pixels;
use std::alloc::Global;
use tile_cache::{Finished, KeyEnd, TileCache};
use tile_combine::combine;
use tile_key::{Group, TileKey};

/// Does what the line says, and prints the answer.
pub(crate) fn act(
    rt: &HostRuntime,
    cache: &mut TileCache,
    tickets: &mut Vec<u64>,
    line: &str,
) -> Result<()>
    requires { Mirrors cache.old.outs tickets.old.items }
    ensures { OnOk result (Mirrors cache.new.outs tickets.new.items) }
{
    let (word, rest) = line.split_once(' ').unwrap_or((line, ""));
    let numbers = numbers(rt.alloc(), rest)?;
    let first = at(numbers.as_slice(), 0);
    match word {
        "job" => {
            let keys = keys(rt.alloc(), numbers.as_slice())?;
            begin_all(rt, cache, tickets, keys.as_slice(), u64::from(first))
        }
        "finish" => finish(rt, cache, tickets, u64::from(first)),
        "damage" => damage(rt, cache, tickets, numbers.as_slice()),
        "current" => show_current(rt, cache, &key(first)),
        "is" => show(rt, cache.is_current(&key(first))),
        "out" => show(rt, cache.is_out(&key(first))),
        "jobs" => {
            let jobs = cache.jobs_out();
            println!(rt; "  {jobs}")?;
            Ok(())
        }
        _ => Ok(()),
    }
}

fn show(rt: &HostRuntime, is: bool) -> Result<()> {
    println!(rt; "  {is}")?;
    Ok(())
}

// Prints the key's current tile.
fn show_current(rt: &HostRuntime, cache: &mut TileCache, key: &TileKey) -> Result<()>
    ensures { OnOk result (cache.new.outs ≡ cache.old.outs) }
{
    let Some((number, rgba)) = cache.current(key)? else {
        println!(rt; "  none")?;
        return Ok(());
    };
    print!(rt; "  {number}:")?;
    for byte in rgba.as_slice() {
        print!(rt; " {byte}")?;
    }
    println!(rt; "")?;
    Ok(())
}

#[tactic(auto, using(crate::proofs::MirrorFacts::after_damage))]
fn damage(
    rt: &HostRuntime,
    cache: &mut TileCache,
    tickets: &Vec<u64>,
    numbers: &[u32],
) -> Result<()>
    requires { Mirrors cache.old.outs tickets.now.items }
    ensures { OnOk result (Mirrors cache.new.outs tickets.now.items) }
{
    let [part, x, y, w, h, n] = numbers else {
        println!(rt; "  no damage")?;
        return Ok(());
    };
    let Some(rect) = rect(*x, *y, *w, *h) else {
        println!(rt; "  no rectangle")?;
        return Ok(());
    };
    cache.damage(*part, &rect, u64::from(*n));
    Ok(())
}

// Begins the keys' groups.
fn begin_all(
    rt: &HostRuntime,
    cache: &mut TileCache,
    tickets: &mut Vec<u64>,
    keys: &[TileKey],
    n: u64,
) -> Result<()>
    requires { Mirrors cache.old.outs tickets.old.items }
    ensures { OnOk result (Mirrors cache.new.outs tickets.new.items) }
{
    for group in combine(rt.alloc(), keys)?.as_slice() {
        begin(rt, cache, tickets, group, n)?;
    }
    Ok(())
}

fn begin(
    rt: &HostRuntime,
    cache: &mut TileCache,
    tickets: &mut Vec<u64>,
    group: &Group,
    n: u64,
) -> Result<()>
    requires { Mirrors cache.old.outs tickets.old.items }
    ensures { OnOk result (Mirrors cache.new.outs tickets.new.items) }
{
    if !are_ready(cache, group.keys()) {
        println!(rt; "  not free")?;
        return Ok(());
    }
    let ticket = cache.begin(rt.alloc(), group, n)?.0;
    let more = copies(rt.alloc(), group.keys(), ticket)?;
    tickets.extend_from_slice(more.as_slice())?;
    println!(rt; "  ticket {ticket}")?;
    Ok(())
}

// Whether a job of the keys may begin here.
fn are_ready(cache: &TileCache, keys: &[TileKey]) -> bool
    ensures free { IsTrue result → All (λ key. IsFree cache.now key) keys.now }
    ensures ones { IsTrue result → All IsOne keys.now }
{
    for key in keys {
        if cache.is_current(key) || cache.is_out(key) || key.width() != 1 || key.height() != 1 {
            return false;
        }
    }
    true
}

// The ticket once for each key.
fn copies(alloc: Global, keys: &[TileKey], ticket: u64) -> Result<Vec<u64>, Memory>
    ensures { IfOk result (λ copies. copies.items ≡ map (λ key. ticket) keys.now) }
{
    let mut copies = Vec::new(alloc);
    for _key in keys {
        copies.push(ticket)?;
    }
    Ok(copies)
}

// The pictures of the job's keys come.
fn finish(
    rt: &HostRuntime,
    cache: &mut TileCache,
    tickets: &mut Vec<u64>,
    ticket: u64,
) -> Result<()>
    requires { Mirrors cache.old.outs tickets.old.items }
    ensures { OnOk result (Mirrors cache.new.outs tickets.new.items) }
{
    let own = own(rt.alloc(), tickets.as_slice(), ticket)?;
    let pictures = pictures(rt.alloc(), own.as_slice())?;
    let finished = cache.finish(rt.alloc(), Ticket(ticket), pictures.as_slice())?;
    end(tickets, ticket);
    show_ends(rt, &finished)?;
    Ok(())
}

fn end(tickets: &mut Vec<u64>, ticket: u64)
    ensures { tickets.new.items ≡ filter (λ t. not (nat_eq t ticket)) tickets.old.items }
{
    tickets.retain(|other| *other != ticket);
}

fn show_ends(rt: &HostRuntime, finished: &Finished) -> Result<()> {
    match finished {
        Finished::Stranger => println!(rt; "  stranger")?,
        Finished::Keys(ends) => {
            for end in ends.as_slice() {
                match end {
                    KeyEnd::Kept => print!(rt; "  kept")?,
                    KeyEnd::Older => print!(rt; "  older")?,
                }
            }
            println!(rt; "")?;
        }
    }
    Ok(())
}

// The tickets that are this one.
fn own(alloc: Global, tickets: &[u64], ticket: u64) -> Result<Vec<u64>, Memory>
    ensures { IfOk result (λ own. own.items ≡ filter (λ t. nat_eq t ticket) tickets.now) }
{
    let mut own = Vec::new(alloc);
    for other in tickets {
        if *other == ticket {
            own.push(*other)?;
        }
    }
    Ok(own)
}

// The pictures of a job's keys, of each of which this is the ticket.
fn pictures(alloc: Global, tickets: &[u64]) -> Result<Vec<Pixels>, Memory>
    ensures count { IfOk result (λ pictures. length pictures.items ≡ length tickets.now) }
    ensures each { IfOk result (λ pictures. AllByRecursion IsDot pictures.items) }
{
    let mut pictures = Vec::new(alloc);
    let mut place = 0u8;
    for ticket in tickets {
        pictures.push(dot(alloc, *ticket, place)?)?;
        place = place.wrapping_add(1);
    }
    Ok(pictures)
}

// The picture of the key in this place of the job with the ticket.
fn dot(alloc: Global, ticket: u64, place: u8) -> Result<Pixels, Memory>
    ensures { IfOk result IsDot }
{
    let mut rgba = Vec::new(alloc);
    rgba.push((ticket % 256) as u8)?;
    rgba.push(place)?;
    rgba.push(0)?;
    rgba.push(255)?;
    Ok(Pixels {
        width: 1,
        height: 1,
        rgba: Bytes::from_vec(rgba)?,
    })
}
