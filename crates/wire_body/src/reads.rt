// A body read from a wire, piece by piece.
ghost use Rattle.std.specs.Prelude.{◌≡◌, ◌≢◌, ◌<◌, ◌≤◌, ◌++◌, [], ℕ, List, Bool, true, false, length, Some, None, Err, IfOk, not, ◌||◌, nat_le};
ghost use Rattle.outside.specs.Causes.{HasCause};
ghost use Rattle.outside.specs.Wires.{Hears};
ghost use Rattle.wire_body.specs.Bodies.{run, is_final, verdict_behind, reached, framing_in};
ghost use Rattle.wire_body.specs.Reads.{IsSaid, ReadsBody};

use crate::faults::HttpFault;
use crate::feeds::{Progress, feed};
use crate::states::{BodyState, FRAMING_LIMIT, Phase};
use bytes::Bytes;
use outside::{ReadStep, Wire, WireFault};
use std::alloc::Global;

/// How many bytes are received at once, at most.
pub const PIECE_LIMIT: usize = 4096;

// Whether the bytes say something without the wire's end.
fn is_said(place: Progress) -> bool
    ensures { result ≡ not (nat_le place.framing FRAMING_LIMIT) || is_final place.state.phase }
{
    place.framing > FRAMING_LIMIT || place.state.phase.is_final()
}

// What is said where the bytes say something.
fn answer_of(place: Progress, body: Vec<u8>, ended: bool) -> Result<Bytes, HttpFault>
    requires { verdict_behind place.framing place.state.phase body.items ended ≢ None }
    ensures said { IsSaid (verdict_behind place.framing place.state.phase body.items ended) result }
    ensures no_fault { result ≢ Err (HttpFault.Wire WireFault.ReadFault) }
{
    if place.framing > FRAMING_LIMIT {
        return Err(HttpFault::Wire(WireFault::BadChunk));
    }
    match place.state.phase {
        Phase::Done | Phase::Open | Phase::Full => Ok(Bytes::from_vec(body)?),
        Phase::TooLong => Err(HttpFault::Wire(WireFault::BodyTooLong)),
        Phase::Bad => Err(HttpFault::Wire(WireFault::BadChunk)),
        _ => Err(HttpFault::Wire(WireFault::CutOff)),
    }
}

/// Reads a body that begins in the given state, of which the bytes in `front` have come already. Where
/// its bytes are past a limit or not in the grammar, that is the answer as soon as they say so:
/// BodyTooLong past `BODY_LIMIT` bytes of content, BadChunk past `FRAMING_LIMIT` bytes of framing,
/// or past `LINE_LIMIT` in the line of a size or in all trailers.
pub fn read_body<W: Wire>(
    alloc: Global,
    wire: &mut W,
    start: BodyState,
    front: &[u8],
) -> Result<Bytes, HttpFault>
    ensures says { ReadsBody (W.talk wire.old) (W.talk wire.new) start front.now result }
    ensures cause { HasCause (W.faults wire.old) (W.faults wire.new) (result ≡ Err (HttpFault.Wire WireFault.ReadFault)) }
{
    let mut body = Vec::new(alloc);
    let begun = Progress {
        state: start,
        framing: 0,
    };
    let mut place = feed(begun, &mut body, front)?;
    let mut room = [0u8; PIECE_LIMIT];
    while !is_said(place) {
        match wire.receive(&mut room) {
            ReadStep::Read(count) => place = feed(place, &mut body, &room[..count])?,
            ReadStep::End => return answer_of(place, body, true),
            ReadStep::Failed => return Err(HttpFault::Wire(WireFault::ReadFault)),
        }
    }
    answer_of(place, body, false)
}
