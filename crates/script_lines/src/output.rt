//! Bytes to a sink: records of frames, and the line that names a fault.
ghost use Rattle.std.specs.Prelude.{◌≡◌, ◌+◌, IfOk, OnOk, OnErr, Err, IfErr, string_bytes};
ghost use Rattle.outside.specs.Causes.{HasCause};
ghost use Rattle.outside.specs.Streams.{Adds};
ghost use Rattle.script_lines.specs.Records.{AddsPart, record_of, fault_text};

use cool_base::Memory;
use outside::{Sink, WriteStep};
use std::alloc::Global;

/// What stopped a script's work.
#[derive(Clone, Copy, Debug, PartialEq, Eq)]
pub enum Stop {
    /// The sink failed.
    Sink,
    /// There was no memory.
    Memory,
}

impl From<Memory> for Stop {
    ghost use Rattle.std.specs.Prelude.{◌≡◌};
    ghost use Rattle.script_lines.specs.declared.output.Stop.TheVariants.{Memory as NoMemory};

    ghost from_gives = { λ _ stop. stop ≡ NoMemory };

    fn from(_: Memory) -> Stop {
        Stop::Memory
    }
}

/// Writes all the bytes. Where the sink fails, a front of them was written and something of them not.
#[tactic(auto, using(crate::proofs::Moves::moves))]
pub fn write_whole<T: Sink>(sink: &mut T, bytes: &[u8]) -> Result<(), Stop>
    ensures ok { OnOk result (Adds (T.written sink.old) bytes.now (T.written sink.new)) }
    ensures err { OnErr result (AddsPart (T.written sink.old) bytes.now (T.written sink.new)) }
    ensures stop { IfErr result (λ stop. stop ≡ Stop.Sink) }
    ensures cause { HasCause (T.faults sink.old) (T.faults sink.new) (result ≡ Err Stop.Sink) }
{
    let mut done = 0;
    while done < bytes.len() {
        match sink.write(&bytes[done..]) {
            WriteStep::Wrote(count) => done += count,
            WriteStep::Failed => return Err(Stop::Sink),
        }
    }
    Ok(())
}

/// The record of a frame to a link: the link and the frame's length, a newline, the frame, a newline.
pub fn record_of(alloc: Global, link: u64, frame: &[u8]) -> Result<Vec<u8>, Memory>
    ensures { IfOk result (λ bytes. bytes.items ≡ record_of link frame.now) }
{
    let length = frame.len();
    let head = format!(in alloc; "{link} {length}\n")?;
    let mut bytes = Vec::from_slice(alloc, head.as_bytes())?;
    bytes.extend_from_slice(frame)?;
    bytes.extend_from_slice(b"\n")?;
    Ok(bytes)
}

/// `fault line <n>` and a newline.
pub fn fault_text(alloc: Global, number: u64) -> Result<String, Memory>
    ensures { IfOk result (λ text. string_bytes text ≡ fault_text number) }
{
    Ok(format!(in alloc; "fault line {number}\n")?)
}
