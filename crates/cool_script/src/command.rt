//! The command `replay`.
ghost use Rattle.std.specs.Prelude.{◌≡◌, ◌↔◌, ◌∷◌, [], codes, map, string_bytes, IsTrue};
ghost use Rattle.kit_trait.specs.Patch.{patch_rules};
ghost use Rattle.kit_trait.specs.PatchSeen.{patch_cut};
ghost use Rattle.script_run.specs.Uses.{source_use, sink_use};
ghost use Rattle.sheet_kit.specs.Seen.{sheet_cut};
ghost use Rattle.sheet_kit.specs.SheetKind.{sheet_kind};
ghost use Rattle.cool_script.specs.Replay.{Plays, Replays, code_of};

use crate::script::Script;
use kit_trait::PatchKit;
use outside::{Sink, Source};
use script_run::{Status, comes_to_its_end, run};
use sheet_kit::SheetKit;
use std::alloc::Global;

/// Plays the script of the source on a patch document or a sheet, and writes the transcript to the sink. The
/// words are those of the command line without the program's name. The exit status is 0 at the line `end`, 2
/// where the words are neither `replay patch` nor `replay sheet`, 3 at a refused line, 4 and 5 where the source
/// or the sink failed, 6 for want of memory, and 7 where no line `end` came in time.
pub fn replay<S: Source, T: Sink>(
    alloc: Global,
    words: &[String],
    source: &mut S,
    sink: &mut T,
) -> u8
    ensures replays { let of_source = source_use S.left S.faults source.old source.new in
        let of_sink = sink_use T.written T.faults sink.old sink.new in
        Replays (map string_bytes words.now) of_source of_sink result }

    // For other words nothing is read or written.
    ensures untouched { result ≡ 2 → (source.new ≡ source.old) × (sink.new ≡ sink.old) }
{
    if plays(words, "patch") {
        comes_to_its_end::<Script<PatchKit>>();
        return code(patch_run(alloc, source, sink));
    }
    if plays(words, "sheet") {
        comes_to_its_end::<Script<SheetKit>>();
        return code(sheet_run(alloc, source, sink));
    }
    2
}

// Whether the words are `replay` and this name.
fn plays(words: &[String], name: &str) -> bool
    ensures { IsTrue result ↔ (map string_bytes words.now ≡ codes "replay" ∷ name.now ∷ []) }
{
    match words {
        [first, second] => {
            if first.as_str() != "replay" {
                return false;
            }
            if second.as_str() != name {
                return false;
            }
            true
        }
        _ => false,
    }
}

// The script on a patch document, from its first line on.
fn patch_run<S: Source, T: Sink>(alloc: Global, source: &mut S, sink: &mut T) -> Status
    ensures { let of_source = source_use S.left S.faults source.old source.new in
        let of_sink = sink_use T.written T.faults sink.old sink.new in
        Plays patch_rules patch_cut of_source of_sink result }
{
    let mut script = Script::<PatchKit>::new(alloc);
    run(alloc, &mut script, source, sink)
}

// The script on a sheet, from its first line on.
fn sheet_run<S: Source, T: Sink>(alloc: Global, source: &mut S, sink: &mut T) -> Status
    ensures { let of_source = source_use S.left S.faults source.old source.new in
        let of_sink = sink_use T.written T.faults sink.old sink.new in
        Plays sheet_kind sheet_cut of_source of_sink result }
{
    let mut script = Script::<SheetKit>::new(alloc);
    run(alloc, &mut script, source, sink)
}

// The exit status of a status.
fn code(status: Status) -> u8
    ensures { result ≡ code_of status }
{
    match status {
        Status::Done => 0,
        Status::WrongWords => 2,
        Status::FaultLine => 3,
        Status::ReadFault => 4,
        Status::WriteFault => 5,
        Status::Memory => 6,
        Status::NoEnd => 7,
    }
}
