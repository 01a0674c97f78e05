//! Reads cases, a line each, and prints of each what the sheet's engine makes of it: names of cells, raw
//! texts, formulas, books and their files. docs/sheet-engine.md says what must come; `stdin` has the cases,
//! and `stdout` what an independent model answers to them (tests/model/sheet_engine.py).
#![tactic(auto)]

mod books;
mod desk;
mod files;
mod formulas;
mod spelling;

use crate::desk::Desk;
use std::alloc::Global;
use std::io::Print;

fn main(rt: HostRuntime) -> anyhow::Result<()> {
    let mut desk = Desk::new(rt.alloc())?;
    for line in rt.lines(rt.alloc()) {
        let line = line?;
        if line.is_empty() || line.starts_with('#') {
            continue;
        }
        println!(rt; "{line}")?;
        answer(&rt, rt.alloc(), &mut desk, &line)?;
    }
    Ok(())
}

// Does what the line says, and prints what comes of it.
fn answer(rt: &impl Print, alloc: Global, desk: &mut Desk, line: &str) -> anyhow::Result<()> {
    let (word, rest) = line.split_once(' ').unwrap_or((line, ""));
    match word {
        "name" => formulas::name(rt, rest),
        "plain" => formulas::plain(rt, rest),
        "formula" => formulas::formula(rt, alloc, rest, formulas::NO_ROW),
        "seven" => formulas::formula(rt, alloc, rest, 0),
        "nested" => formulas::nested(rt, alloc, rest),
        "texts" => books::texts(rt, alloc, rest),
        "book" => books::begin_book(rt, alloc, desk, rest),
        "set" => books::set(rt, desk, rest),
        "show" => books::show(rt, desk, rest),
        "readers" => books::readers(rt, desk, rest),
        "written" => files::written(rt, alloc, desk),
        "draft" => files::draft(rt, alloc, desk, rest),
        "file" => files::file(rt, alloc, desk, rest),
        "sized" => files::sized(rt, alloc, desk, rest),
        _ => Ok(println!(rt; "  no such case")?),
    }
}
