//! Reads lines, each the words of a command that serves with one blank between two, and prints what
//! they say, or why they say nothing.
#![tactic(auto)]

use anyhow::Result;
use server_words::{HostWords, KitName, ServeWords, WordsFault, host_words, serve_words};

fn main(rt: HostRuntime) -> Result<()> {
    for line in rt.lines(rt.alloc()) {
        let line = line?;
        println!(rt; "{line}")?;
        let words = words_of(&rt, line.as_str())?;
        if line.starts_with("serve") {
            show_serve(&rt, serve_words(rt.alloc(), words.as_slice()))?;
        } else {
            show_host(&rt, host_words(rt.alloc(), words.as_slice()))?;
        }
    }
    Ok(())
}

// The words of a line.
fn words_of(rt: &HostRuntime, line: &str) -> Result<Vec<String>> {
    let mut words = Vec::new(rt.alloc());
    for word in line.split(' ') {
        words.push(String::from_str(rt.alloc(), word)?)?;
    }
    Ok(words)
}

// Prints what the words of `serve` say.
fn show_serve(rt: &HostRuntime, said: Result<ServeWords<'_>, WordsFault>) -> Result<()> {
    match said {
        Ok(words) => {
            let kit = match words.kit {
                KitName::Sheet => "sheet",
                KitName::Patch => "patch",
            };
            println!(rt; "  port {}", words.port)?;
            println!(rt;
                "  host {} port {} of {}",
                words.wopi.host, words.wopi.port, words.wopi.text
            )?;
            println!(rt; "  polls {} workers {}", words.polls, words.workers)?;
            println!(rt; "  sessions {} kit {kit}", words.sessions)?;
        }
        Err(fault) => show_fault(rt, fault)?,
    }
    Ok(())
}

// Prints what the words of `host` say.
fn show_host(rt: &HostRuntime, said: Result<HostWords<'_>, WordsFault>) -> Result<()> {
    match said {
        Ok(words) => {
            println!(rt; "  port {} folder {}", words.port, words.folder)?;
            println!(rt; "  requests {}", words.requests)?;
        }
        Err(fault) => show_fault(rt, fault)?,
    }
    Ok(())
}

// Prints why words say nothing.
fn show_fault(rt: &HostRuntime, fault: WordsFault) -> Result<()> {
    match fault {
        WordsFault::Refused => println!(rt; "  refused")?,
        WordsFault::Memory => println!(rt; "  out of memory")?,
    }
    Ok(())
}
