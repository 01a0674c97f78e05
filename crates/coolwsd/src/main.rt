//! The daemon's program. `coolwsd replay patch` and `coolwsd replay sheet` read a script from
//! standard input, play it on a patch document or a sheet, and write the transcript to standard
//! output; the exit status says how the script ended. `coolwsd host` serves a host of files over a
//! folder and sockets. For other words a line on standard error says how the program is called.
#![tactic(auto)]

mod hosts;
mod program;
mod streams;

use crate::hosts::{host_program, is_host};
use crate::program::{NO_MEMORY, WordsFault, program};
use crate::streams::{StandardInput, StandardOutput};
use real_edge::RealEdge;
use std::env;
use std::io::{self, BufReader};
use std::process::ExitCode;

fn main(rt: HostRuntime) -> ExitCode {
    let Ok(reader) = BufReader::new(rt.alloc(), rt.reader()) else {
        return ExitCode::from(NO_MEMORY);
    };
    let mut source = StandardInput::new(reader);
    let mut sink = StandardOutput::new(io::writer(&rt));
    let mut errors = StandardOutput::new(rt.stderr());
    let words = words(&rt);
    if let Ok(words) = &words {
        if is_host(words) {
            let mut edge = RealEdge::new(&rt);
            return ExitCode::from(host_program(&rt, rt.alloc(), words, &mut edge, &mut errors));
        }
    }
    ExitCode::from(program(rt.alloc(), words, &mut source, &mut sink, &mut errors))
}

// The words of the command line, without the program's name.
fn words(rt: &HostRuntime) -> Result<Vec<String>, WordsFault> {
    let arguments = match env::args(rt) {
        Ok(arguments) => arguments,
        Err(error) if error.kind() == io::ErrorKind::OutOfMemory => return Err(WordsFault::Memory),
        Err(_) => return Err(WordsFault::NotText),
    };
    let mut words = Vec::new(rt.alloc());
    for word in arguments.skip(1) {
        if words.push(word).is_err() {
            return Err(WordsFault::Memory);
        }
    }
    Ok(words)
}
