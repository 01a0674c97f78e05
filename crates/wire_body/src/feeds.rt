// A piece of a body: its content by blocks, all else byte by byte.
ghost use Rattle.std.specs.Prelude.{◌≡◌, ◌<◌, ◌≤◌, ◌++◌, [], ◌∷◌, List, ℕ, length, drop, take, min, max, true, false, if◌then◌else◌, IfOk, ◌+◌};
ghost use Rattle.wire_body.specs.Bodies.{run, reached, is_content, behind, taken, framing_at, framing_in};
ghost use Rattle.wire_body.specs.declared.states.TheConstants.{FRAMING_LIMIT};

use crate::states::{BodyState, Phase};
use cool_base::Memory;

// How many bytes from the front of so many are content, where the next one is.
fn block_of(state: BodyState, room: usize) -> u32
    requires { 0 < room }
    ensures some { 0 < result }
    ensures within { result ≤ room }
    ensures content { result ≤ max state.left 1 }
{
    let most = state.left.max(1);
    if room < most as usize {
        room as u32
    } else {
        most
    }
}

// Where a body stands, and how many of its bytes were framing.
#[derive(Clone, Copy)]
pub struct Progress {
    pub state: BodyState,
    pub framing: usize,
}

// Takes a front of the piece, which isn't empty, and says how long it was.
fn feed_front(
    state: BodyState,
    body: &mut Vec<u8>,
    piece: &[u8],
) -> Result<(BodyState, usize), Memory>
    requires { 0 < length piece.now }
    ensures { IfOk result (λ r. (0 < r.1) × (r.1 ≤ length piece.now) × (run state body.old.items piece.now ≡ run r.0 body.new.items (drop r.1 piece.now)) × (framing_in state piece.now ≡ framing_at state.phase + framing_in r.0 (drop r.1 piece.now))) }
{
    if !state.phase.is_content() {
        return Ok((state.step(piece[0]), 1));
    }
    let count = block_of(state, piece.len());
    body.extend_from_slice(&piece[..count as usize])?;
    Ok((state.taken(state.phase.behind(), count), count as usize))
}

// Takes the piece, adds its content to the body, and counts its framing. The time is linear in the
// piece.
pub fn feed(start: Progress, body: &mut Vec<u8>, piece: &[u8]) -> Result<Progress, Memory>
    requires { start.framing ≤ FRAMING_LIMIT }
    ensures leads { IfOk result (λ to. run start.state body.old.items piece.now ≡ reached to.state body.new.items) }
    ensures counts { IfOk result (λ to. to.framing ≡ start.framing + framing_in start.state piece.now) }
{
    let Progress {
        mut state,
        mut framing,
    } = start;
    let mut rest = piece;
    while !rest.is_empty() {
        framing += state.phase.framing();
        let (next, count) = feed_front(state, body, rest)?;
        state = next;
        rest = &rest[count..];
    }
    Ok(Progress { state, framing })
}
