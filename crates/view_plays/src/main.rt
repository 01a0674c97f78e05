//! Reads lines, and prints what views and windows make of them. `begin view` and `begin window` begin with a
//! new one; the lines behind are what is done to it (`Viewed::act`, `Windowed::act`), up to `end`, where all
//! that it answered is printed. Lines with a `#` at their head are printed as they are.
#![tactic(auto)]

mod viewed;
mod windowed;
mod words;

use crate::viewed::Viewed;
use crate::windowed::Windowed;
use cool_base::Memory;
use std::alloc::Global;
use std::io;

/// What the lines are about.
#[derive(Drop)]
enum Subject {
    Nothing,
    View(Viewed),
    Window(Windowed),
}

impl Subject {
    /// A new one of this kind.
    fn begin(alloc: Global, kind: &str) -> Result<Subject, Memory> {
        match kind {
            "view" => Ok(Subject::View(Viewed::new(alloc)?)),
            "window" => Ok(Subject::Window(Windowed::new(alloc))),
            _ => Ok(Subject::Nothing),
        }
    }

    /// Does what the line says.
    fn act(&mut self, alloc: Global, line: &str) -> Result<(), Memory> {
        match self {
            Subject::Nothing => Ok(()),
            Subject::View(view) => view.act(alloc, line),
            Subject::Window(window) => window.act(alloc, line),
        }
    }

    /// All that it answered.
    fn text(&self) -> &str {
        match self {
            Subject::Nothing => "",
            Subject::View(view) => view.text(),
            Subject::Window(window) => window.text(),
        }
    }
}

fn main(rt: HostRuntime) -> io::Result<()> {
    let mut subject = Subject::Nothing;
    for line in rt.lines(rt.alloc()) {
        let line = line?;
        if line.starts_with("#") {
            println!(rt; "{line}")?;
            continue;
        }
        if line.as_str() == "end" {
            print!(rt; "{}", subject.text())?;
            continue;
        }
        let done = match line.split_once(' ') {
            Some(("begin", kind)) => begun(&mut subject, rt.alloc(), kind),
            _ => subject.act(rt.alloc(), line.as_str()),
        };
        if done.is_err() {
            println!(rt; "out of memory")?;
        }
    }
    Ok(())
}

// The lines are about a new one of this kind.
fn begun(subject: &mut Subject, alloc: Global, kind: &str) -> Result<(), Memory> {
    *subject = Subject::begin(alloc, kind)?;
    Ok(())
}
