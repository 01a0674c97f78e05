//! Reads lines, each an act on a document's saves, and prints what each call answers. Lines with
//! a `#` at their head are printed as they are. A call whose condition would not hold is not
//! made, and a word printed.
//!
//! - `begin`: a document is loaded anew. `end`, `tell`: what is stored last, whether a put is
//!   under way, whether none waits. `see NUMBER`: whether a put may begin where so many inputs
//!   are applied, and whether a save has this mark.
//! - `wait VIEW MARK skip|put TOKEN`: a save of the view waits, of none where `VIEW` is `-`.
//! - `start APPLIED FILE CONTENT`: the ready saves are served, where one is ready.
//! - `answer TICKET stored|failed|other-file|other-content`: the store's answer; a receipt is
//!   for the file and the content of the last put that began, or for others. Where no put began,
//!   `stored` and `other-content` have no receipt.
//! - `keep TOKEN`: it is kept for final saves. `final MARK`: a final save waits, where there is
//!   room.
#![tactic(auto)]

mod desk;
mod texts;

use crate::desk::Desk;
use crate::texts::{number, split, started_text, text_of};
use anyhow::Result;
use bytes::Bytes;
use cool_base::{FileId, Ticket, Token, ViewId};
use outside::Receipt;
use save_core::SaveFault;

fn main(rt: HostRuntime) -> Result<()> {
    let mut desk = Desk::new(rt.alloc())?;
    for line in rt.lines(rt.alloc()) {
        let line = line?;
        if line.starts_with("#") {
            println!(rt; "{line}")?;
            continue;
        }
        if line.as_str() == "begin" {
            desk = Desk::new(rt.alloc())?;
            continue;
        }
        let (word, rest) = split(line.as_str());
        act(&rt, &mut desk, word, rest)?;
    }
    Ok(())
}

// Does what the line says.
fn act(rt: &HostRuntime, desk: &mut Desk, word: &str, rest: &str) -> Result<()> {
    match word {
        "wait" => waits(rt, desk, rest),
        "start" => starts(rt, desk, rest),
        "answer" => answers(rt, desk, rest),
        "keep" => keeps(rt, desk, rest),
        "final" => finals(rt, desk, number(rest)),
        "see" => sees(rt, desk, number(rest)),
        "tell" | "end" => tells(rt, desk),
        _ => Ok(println!(rt; "no such act")?),
    }
}

fn waits(rt: &HostRuntime, desk: &mut Desk, rest: &str) -> Result<()> {
    let (view, rest) = split(rest);
    let (mark, rest) = split(rest);
    let (skip, token) = split(rest);
    let Some(token) = Token::read(rt.alloc(), token)? else {
        return Ok(println!(rt; "no token")?);
    };
    let view = match view {
        "-" => None,
        _ => Some(ViewId(cool_base::read_u31(view.as_bytes()).unwrap_or(0))),
    };
    let word = match desk.wait(view, number(mark), skip == "skip", token) {
        Ok(()) => "waits",
        Err(SaveFault::SavesFull) => "too many",
        Err(SaveFault::Memory) => "out of memory",
    };
    Ok(println!(rt; "{word}")?)
}

fn starts(rt: &HostRuntime, desk: &mut Desk, rest: &str) -> Result<()> {
    let (applied, rest) = split(rest);
    let (file, content) = split(rest);
    let Some(file) = FileId::read(file) else {
        return Ok(println!(rt; "no file")?);
    };
    let content = Bytes::copy_from_slice(rt.alloc(), content.as_bytes())?;
    match desk.start(number(applied), &file, content)? {
        Some(started) => {
            let text = started_text(rt.alloc(), &started)?;
            println!(rt; "{text}")?;
        }
        None => println!(rt; "not ready")?,
    }
    Ok(())
}

fn answers(rt: &HostRuntime, desk: &mut Desk, rest: &str) -> Result<()> {
    let (ticket, kind) = split(rest);
    let ticket = Ticket(number(ticket));
    let receipt = receipt(rt, desk, kind)?;
    let given = desk.answer(ticket, receipt.as_ref())?;
    if given.is_empty() {
        println!(rt; "answers nobody")?;
    }
    for answer in given.as_slice() {
        let text = text_of(rt.alloc(), answer)?;
        println!(rt; "{text}")?;
    }
    Ok(())
}

// The receipt of this kind for the last put that began; None where the store failed.
fn receipt(rt: &HostRuntime, desk: &Desk, kind: &str) -> Result<Option<Receipt>> {
    if kind == "failed" {
        return Ok(None);
    }
    let other = FileId::read("other");
    let file = if kind == "other-file" {
        other
    } else {
        desk.file()
    };
    let content = if kind == "other-content" {
        Bytes::from_static(b"other")
    } else {
        desk.content()?
    };
    Ok(file.map(|file| Receipt { file, content }))
}

fn keeps(rt: &HostRuntime, desk: &mut Desk, token: &str) -> Result<()> {
    let Some(token) = Token::read(rt.alloc(), token)? else {
        return Ok(println!(rt; "no token")?);
    };
    desk.keep(token)?;
    Ok(println!(rt; "kept")?)
}

fn finals(rt: &HostRuntime, desk: &mut Desk, mark: u64) -> Result<()> {
    let word = if desk.wait_final(mark) {
        "waits"
    } else {
        "no room"
    };
    Ok(println!(rt; "{word}")?)
}

fn sees(rt: &HostRuntime, desk: &Desk, number: u64) -> Result<()> {
    let ready = desk.saves().is_ready(number);
    let mark = desk.saves().has_mark(number);
    Ok(println!(rt; "ready {ready}, mark {mark}")?)
}

fn tells(rt: &HostRuntime, desk: &Desk) -> Result<()> {
    let last = desk.saves().last_stored();
    let put = desk.saves().has_put();
    let empty = desk.saves().is_empty();
    Ok(println!(rt; "stored {last}, put {put}, empty {empty}")?)
}
