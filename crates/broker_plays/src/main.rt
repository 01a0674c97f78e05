//! Reads lines, and prints what documents make of them. `begin patch` and `begin sheet` begin with a new one;
//! the lines behind are what is done to it (`Stage::act`), up to `end`, where all that it gave out is printed.
//! Lines with a `#` at their head are printed as they are.
#![tactic(auto)]

mod client;
mod stage;
mod texts;
mod works;

use crate::stage::Stage;
use cool_base::Memory;
use kit_trait::PatchKit;
use sheet_kit::SheetKit;
use std::alloc::Global;
use std::io;

/// Three parts: 5 and 6 below one another, 3 and 7 side by side, a letter.
const BOOK: &[u8] = b"coolsheet 1\nparts 3\n0 A1 5\n0 A2 =A1+1\n1 A1 =1+2\n1 B1 7\n2 A1 x\n";

/// What the lines are about.
#[derive(Drop)]
enum Subject {
    Nothing,
    Patch(Stage<PatchKit>),
    Sheet(Stage<SheetKit>),
}

impl Subject {
    /// A new one of this kind.
    fn begin(alloc: Global, kind: &str) -> Result<Subject, Memory> {
        match kind {
            "patch" => Ok(Subject::Patch(Stage::new(alloc, b"", true)?)),
            "sheet" => Ok(Subject::Sheet(Stage::new(alloc, BOOK, false)?)),
            _ => Ok(Subject::Nothing),
        }
    }

    /// Does what the line says.
    fn act(&mut self, alloc: Global, line: &str) -> Result<(), Memory> {
        match self {
            Subject::Nothing => Ok(()),
            Subject::Patch(stage) => stage.act(alloc, line),
            Subject::Sheet(stage) => stage.act(alloc, line),
        }
    }

    /// All that it gave out.
    fn text(&self) -> &str {
        match self {
            Subject::Nothing => "",
            Subject::Patch(stage) => stage.text(),
            Subject::Sheet(stage) => stage.text(),
        }
    }
}

fn main(rt: HostRuntime) -> io::Result<()> {
    let mut subject = Subject::Nothing;
    for line in rt.lines(rt.alloc()) {
        let line = line?;
        if line.starts_with("#") {
            println!(rt; "{line}")?;
            continue;
        }
        if line.as_str() == "end" {
            print!(rt; "{}", subject.text())?;
            continue;
        }
        let done = match line.split_once(' ') {
            Some(("begin", kind)) => begun(&mut subject, rt.alloc(), kind),
            _ => subject.act(rt.alloc(), line.as_str()),
        };
        if done.is_err() {
            println!(rt; "out of memory")?;
        }
    }
    Ok(())
}

// The lines are about a new one of this kind.
fn begun(subject: &mut Subject, alloc: Global, kind: &str) -> Result<(), Memory> {
    *subject = Subject::begin(alloc, kind)?;
    Ok(())
}
