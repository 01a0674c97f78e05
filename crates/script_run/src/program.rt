//! A script from its first line on.
ghost use Rattle.std.specs.Prelude.{◌≡◌, ◌+◌, ◌<◌};
ghost use Rattle.outside.specs.Causes.{HasCause};
ghost use Rattle.script_run.specs.Play.{Answers, answer_of};
ghost use Rattle.script_run.specs.Transcript.{Ended};
ghost use Rattle.script_run.specs.Uses.{source_use, sink_use};

use crate::play::{Play, refuse};
use crate::status::Status;
use outside::{Sink, Source};
use script_lines::{LineStep, next_line};
use std::alloc::Global;

/// How many bytes of a script are read at most.
const BUDGET: u64 = 1_073_741_824;

/// Reads a script from the source, plays its lines and lets them write to the sink. All that a line
/// writes is written before the next is read, and nothing behind the line `end` is read. The status
/// says why it ended; it is never `WrongWords`.
pub fn run<P: Play, S: Source, T: Sink>(
    alloc: Global,
    player: &mut P,
    source: &mut S,
    sink: &mut T,
) -> Status
    ensures ended { let of_source = source_use S.left S.faults source.old source.new in
        let of_sink = sink_use T.written T.faults sink.old sink.new in
        Ended P.position P.step P.under (P.state player.old) of_source of_sink result }
    ensures read { HasCause (S.faults source.old) (S.faults source.new) (result ≡ Status.ReadFault) }
    ensures write { HasCause (T.faults sink.old) (T.faults sink.new) (result ≡ Status.WriteFault) }
{
    let mut line = Vec::new(alloc);
    let mut room = BUDGET;
    let mut number: u64 = 0;
    while room > 0 {
        match next_line(source, &mut line, &mut room) {
            LineStep::Whole => {}
            LineStep::Last => return last_answer(alloc, player, sink, &line, number + 1),
            LineStep::End => return Status::NoEnd,
            LineStep::TooLong => return refuse(alloc, sink, number + 1),
            LineStep::Spent => return Status::NoEnd,
            LineStep::Failed => return Status::ReadFault,
            LineStep::Memory => return Status::Memory,
        }
        number += 1;
        match player.answer(alloc, sink, &line, number) {
            None => {}
            Some(status) => return status,
        }
    }
    Status::NoEnd
}

// Takes the last line, which has no newline: where it acts, the script has no end.
fn last_answer<P: Play, T: Sink>(
    alloc: Global,
    player: &mut P,
    sink: &mut T,
    line: &[u8],
    number: u64,
) -> Status
    ensures answers { Answers P.position P.step P.under (answer_of result) (P.state player.old) line.now number (P.state player.new) (T.written sink.old) (T.written sink.new) }
    ensures cause { HasCause (T.faults sink.old) (T.faults sink.new) (result ≡ Status.WriteFault) }
{
    match player.answer(alloc, sink, line, number) {
        None => Status::NoEnd,
        Some(status) => status,
    }
}
