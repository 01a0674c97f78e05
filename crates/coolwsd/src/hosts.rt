//! The command `host`.
ghost use Rattle.std.specs.Prelude.{◌≡◌, ◌↔◌, IsTrue, map, string_bytes};
ghost use Rattle.outside.specs.Causes.{HasCause};
ghost use Rattle.cool_server.specs.Hosting.{HostServes};
ghost use Rattle.coolwsd.specs.Hosts.{IsHost};

use crate::program::WRONG_WORDS;
use cool_server::{host_serve, refusal_text};
use edge::Edge;
use outside::Sink;
use script_lines::write_whole;
use std::alloc::Global;
use std::sync::Wait;

/// Whether the first word is `host`.
pub fn is_host(words: &[String]) -> bool
    ensures { IsTrue result ↔ IsHost (map string_bytes words.now) }
{
    match words {
        [first, ..] => first.as_str() == "host",
        [] => false,
    }
}

/// Serves the host of files by the words of the command line, and tells `errors` why they are
/// refused. What it answers is the exit status.
pub fn host_program<R: Wait, E: Edge, T: Sink>(
    rt: &R,
    alloc: Global,
    words: &[String],
    edge: &mut E,
    errors: &mut T,
) -> u8
    ensures served { let said = map string_bytes words.now in
        HostServes said (E.told edge.old) result (E.told edge.new) }
    ensures cause { HasCause (E.faults edge.old) (E.faults edge.new) (result ≡ 8) }

    // Nothing is told but where the status is 2.
    ensures silent { (result ≡ 2 → ⊥) → errors.new ≡ errors.old }
{
    let status = host_serve(rt, alloc, words, edge);
    if status == WRONG_WORDS {
        tell_refusal(alloc, words, errors);
    }
    status
}

// Writes the text of a refusal; where there is no memory for it, or the sink fails, there is nobody
// to be told.
fn tell_refusal<T: Sink>(alloc: Global, words: &[String], errors: &mut T) {
    if let Ok(text) = refusal_text(alloc, words) {
        let _told = write_whole(errors, text.as_bytes());
    }
}
