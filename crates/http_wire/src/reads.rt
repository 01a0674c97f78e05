// A message read from a wire: its head first, then its body.
ghost use Rattle.std.specs.Prelude.{◌≡◌, ◌≢◌, ◌<◌, ◌≤◌, ◌-◌, ◌++◌, [], ℕ, List, length, take, drop, Err, IfOk, IfErr, IsErrOf};
ghost use Rattle.outside.specs.Causes.{HasCause};
ghost use Rattle.outside.specs.Wires.{Hears};
ghost use Rattle.http_head.specs.Phases.{Leads, IsOpen};
ghost use Rattle.http_wire.specs.Messages.{ReadsMessage, GotHead, Scans};
ghost use Rattle.http_wire.specs.Following.{Follows};

use crate::heads::{Head, start_of};
use cool_base::Memory;
use http_head::{HEAD_LIMIT, HeadPhase, Scan};
use outside::{ReadStep, Wire, WireFault};
use std::alloc::Global;
use wire_body::{HttpFault, read_body};

// How many bytes of a head are received at once, at most.
const PIECE: usize = 1024;

// A whole head, with all bytes that were received for it and how many of them are its own.
#[derive(Drop)]
pub(crate) struct Found<H> {
    parts: H,
    bytes: Vec<u8>,
    len: usize,
}

// Which head the bytes begin with. They are scanned only where the phase that they led to isn't
// open.
fn look<H: Head>(alloc: Global, phase: HeadPhase, bytes: &[u8]) -> Result<Scan<H>, Memory>
    requires { Follows H.kind bytes.now phase }
    ensures { IfOk result (Scans H.kind bytes.now) }
{
    if phase.is_open() {
        return Ok(Scan::Begun);
    }
    H::scan(alloc, bytes)
}

// Reads until a whole head is there: `HEAD_LIMIT` bytes at most.
fn read_head<H: Head, W: Wire>(alloc: Global, wire: &mut W) -> Result<Found<H>, HttpFault>
    ensures found { IfOk result (λ f. GotHead H.kind (W.talk wire.old) (W.talk wire.new) f.parts f.bytes.items f.len) }
    ensures refused { IfErr result (λ fault. ReadsMessage H.kind (W.talk wire.old) (W.talk wire.new) (Err fault)) }
    ensures cause { HasCause (W.faults wire.old) (W.faults wire.new) (IsErrOf result (HttpFault.Wire WireFault.ReadFault)) }
{
    let mut bytes = Vec::new(alloc);
    let mut phase = H::first_phase();
    let mut room = [0u8; PIECE];
    loop {
        match look::<H>(alloc, phase, &bytes)? {
            Scan::Whole(parts, len) => return Ok(Found { parts, bytes, len }),
            Scan::NoHead => return Err(HttpFault::Wire(WireFault::BadHead)),
            Scan::Begun => {}
        }
        if bytes.len() >= HEAD_LIMIT {
            return Err(HttpFault::Wire(WireFault::HeadTooLong));
        }
        let most = PIECE.min(HEAD_LIMIT - bytes.len());
        match wire.receive(&mut room[..most]) {
            ReadStep::Read(count) => {
                let piece = &room[..count];
                bytes.extend_from_slice(piece)?;
                phase = phase.after(piece);
            }
            ReadStep::End => return Err(HttpFault::Wire(WireFault::CutOff)),
            ReadStep::Failed => return Err(HttpFault::Wire(WireFault::ReadFault)),
        }
    }
}

// Reads a message.
pub(crate) fn read_message<H: Head, W: Wire>(
    alloc: Global,
    wire: &mut W,
) -> Result<H::Message, HttpFault>
    ensures says { ReadsMessage H.kind (W.talk wire.old) (W.talk wire.new) result }
    ensures cause { HasCause (W.faults wire.old) (W.faults wire.new) (IsErrOf result (HttpFault.Wire WireFault.ReadFault)) }
{
    let found: Found<H> = match read_head(alloc, wire) {
        Ok(found) => found,
        Err(fault) => return Err(fault),
    };
    let Found { parts, bytes, len } = found;
    let start = start_of(parts.framing());
    match read_body(alloc, wire, start, &bytes[len..]) {
        Ok(body) => Ok(parts.with_body(body)),
        Err(fault) => Err(fault),
    }
}
