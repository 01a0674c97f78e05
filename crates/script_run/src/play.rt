//! What plays the lines of a script.
ghost use Rattle.std.specs.Prelude.{◌≡◌, ℕ, List, Some};
ghost use Rattle.outside.specs.Causes.{HasCause};
ghost use Rattle.script_lines.specs.Positions.{Position};
ghost use Rattle.script_lines.specs.Grammar.{role, followed};
ghost use Rattle.script_run.specs.Determined.{StepsOnce, StaysGood};
ghost use Rattle.script_run.specs.Play.{Answers, Refuses};

use crate::status::Status;
use outside::Sink;
use script_lines::{fault_text, write_whole};
use std::alloc::Global;

/// A world that a script is played on.
pub trait Play {
    /// What contracts see of it.
    ghost State: { Type 0 };

    ghost state: { Self → State };

    /// Where the script's grammar stands.
    ghost position: { State → Position };

    /// A line that acts: from one state to another, with the bytes that it writes.
    ghost step: { State → List ℕ → List ℕ → State → Type 0 };

    /// The bytes that a line which is under way has made so far.
    ghost under: { State → List ℕ → List ℕ → Type 0 };

    /// Takes one line: None where it acts, else the status that it decides. A refused line is named by
    /// its number.
    fn answer<T: Sink>(
        &mut self,
        alloc: Global,
        sink: &mut T,
        line: &[u8],
        number: u64,
    ) -> Option<Status>
        ensures answers { Answers position step under result (state self.old) line.now number (state self.new) (T.written sink.old) (T.written sink.new) }
        ensures cause { HasCause (T.faults sink.old) (T.faults sink.new) (result ≡ Some Status.WriteFault) };

    /// The states from which what a line writes is no choice.
    ghost is_good: { State → Type 0 };

    /// A law: from a good state a line that acts writes one thing and leads to one state, which is good.
    fn steps_once()
        ensures once { StepsOnce step is_good }
        ensures stays { StaysGood step is_good };

    /// A line acts only where the grammar lets it, and the script then stands where the grammar says.
    ghost follows: { (s : State) (line out : List ℕ) (t : State) → step s line out t → followed (role (position s) line) (λ next. Some next) ≡ Some (position t) };
}

/// Writes the text that names a refused line.
pub fn refuse<T: Sink>(alloc: Global, sink: &mut T, number: u64) -> Status
    ensures writes { Refuses result number (T.written sink.old) (T.written sink.new) }
    ensures cause { HasCause (T.faults sink.old) (T.faults sink.new) (result ≡ Status.WriteFault) }
{
    let Ok(text) = fault_text(alloc, number) else {
        return Status::Memory;
    };
    match write_whole(sink, text.as_bytes()) {
        Ok(()) => Status::FaultLine,
        Err(_) => Status::WriteFault,
    }
}
