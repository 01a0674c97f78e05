//! What the program does with its words and its streams.
ghost use Rattle.std.specs.Prelude.{◌≡◌, IfOk, IfErr, OnErr, map, string_bytes};
ghost use Rattle.outside.specs.Causes.{HasCause};
ghost use Rattle.script_run.specs.Uses.{source_use, sink_use};
ghost use Rattle.cool_script.specs.Replay.{Replays};
ghost use Rattle.coolwsd.specs.Program.{TellsUsage, code_of_fault};

use cool_script::replay;
use outside::{Sink, Source};
use script_lines::write_whole;
use std::alloc::Global;

/// The exit status for words that are none of the forms.
pub const WRONG_WORDS: u8 = 2;

/// The exit status for want of memory.
pub const NO_MEMORY: u8 = 6;

/// What standard error is told where the words are none of the forms.
const USAGE: &str =
    "usage: coolwsd replay <patch or sheet>, or coolwsd host --port <n> --folder <dir>\n";

/// Why the words of the command line can't be had.
#[derive(Clone, Copy, Debug, PartialEq, Eq)]
pub enum WordsFault {
    /// There was no memory for them.
    Memory,
    /// A word is no UTF-8, so the words are none of the forms.
    NotText,
}

/// Replays by the words of the command line, and tells `errors` the usage where they are none of the forms. What
/// it answers is the exit status.
pub fn program<S: Source, T: Sink, E: Sink>(
    alloc: Global,
    words: Result<Vec<String>, WordsFault>,
    source: &mut S,
    sink: &mut T,
    errors: &mut E,
) -> u8
    ensures replays { let of_source = source_use S.left S.faults source.old source.new in
        let of_sink = sink_use T.written T.faults sink.old sink.new in
        IfOk words (λ words. Replays (map string_bytes words.items) of_source of_sink result) }
    ensures fault { IfErr words (λ fault. result ≡ code_of_fault fault) }
    ensures fault_untouched { OnErr words ((source.new ≡ source.old) × (sink.new ≡ sink.old)) }
    ensures untouched { result ≡ 2 → (source.new ≡ source.old) × (sink.new ≡ sink.old) }

    // The usage is told exactly where the exit status is 2.
    ensures usage { result ≡ 2 → TellsUsage (E.written errors.old) (E.written errors.new) (E.faults errors.old) (E.faults errors.new) }
    ensures silent { (result ≡ 2 → ⊥) → errors.new ≡ errors.old }
{
    let status = answer(alloc, words, source, sink);
    if status == WRONG_WORDS {
        tell_usage(errors);
    }
    status
}

// The exit status for the words, if they can be had.
fn answer<S: Source, T: Sink>(
    alloc: Global,
    words: Result<Vec<String>, WordsFault>,
    source: &mut S,
    sink: &mut T,
) -> u8
    ensures replays { let of_source = source_use S.left S.faults source.old source.new in
        let of_sink = sink_use T.written T.faults sink.old sink.new in
        IfOk words (λ words. Replays (map string_bytes words.items) of_source of_sink result) }
    ensures fault { IfErr words (λ fault. result ≡ code_of_fault fault) }
    ensures fault_untouched { OnErr words ((source.new ≡ source.old) × (sink.new ≡ sink.old)) }
    ensures untouched { result ≡ 2 → (source.new ≡ source.old) × (sink.new ≡ sink.old) }
{
    match words {
        Ok(words) => replay(alloc, &words, source, sink),
        Err(WordsFault::Memory) => NO_MEMORY,
        Err(WordsFault::NotText) => WRONG_WORDS,
    }
}

// Writes the usage; where the sink fails, a front of it is written, and there is nobody to be told.
fn tell_usage<E: Sink>(errors: &mut E)
    ensures { TellsUsage (E.written errors.old) (E.written errors.new) (E.faults errors.old) (E.faults errors.new) }
{
    let _told = write_whole(errors, USAGE.as_bytes());
}
