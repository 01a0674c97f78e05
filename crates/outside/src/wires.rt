// A wire: bytes both ways.
ghost use Rattle.std.specs.Prelude.{◌≡◌, ◌<◌, ◌≤◌, ℕ, Option, length, take, min};
ghost use Rattle.outside.specs.Causes.{HasCause};
ghost use Rattle.outside.specs.Wires.{Talk, Sends, Receives};

use crate::streams::{ReadStep, WriteStep};
use cool_base::Memory;
use std::alloc::Global;
use std::marker::Model;

/// A way for bytes in both directions.
pub trait Wire {
    /// What was sent and received, and whether an end was given, where the wire tells it.
    ghost talk: { Self → Option Talk };

    /// How many faults there were. The count stays at 2^64 - 1 once it is there.
    ghost faults: { Self → ℕ };

    /// Sends a front of the piece.
    fn send(&mut self, piece: &[u8]) -> WriteStep
        ensures sends { Sends (talk self.old) (talk self.new) result piece.now }
        ensures cause { HasCause (faults self.old) (faults self.new) (result ≡ WriteStep.Failed) };

    /// Receives into the front of `into`, which isn't empty. What stands behind that front is open.
    fn receive(&mut self, into: &mut [u8]) -> ReadStep
        requires { 0 < length into.old }
        ensures receives { Receives (talk self.old) (talk self.new) result into.new }
        ensures cause { HasCause (faults self.old) (faults self.new) (result ≡ ReadStep.Failed) };
}

/// A wire in memory: it gives stated bytes, and takes what is sent up to a stated room. A send that
/// goes beyond the room fails and sends nothing. No receive fails.
#[derive(Drop)]
pub struct MemoryWire {
    sent: Vec<u8>,
    room: usize,
    incoming: Vec<u8>,
    given: usize,
    pace: usize,
    ended: bool,
    faults: u64,
}

impl Model for MemoryWire {
    ghost use Rattle.outside.specs.Wires.{Held};
    ghost use Rattle.std.specs.Prelude.{◌≤◌, ◌<◌, length, take, drop, vec_capacity};

    ghost Value = { Held };

    ghost view = { λ w. record {
      talk = record { sent = w.sent.items; received = take w.given w.incoming.items; ended = w.ended };
      left = drop w.given w.incoming.items;
      pace = w.pace;
      room = w.room;
      faults = w.faults;
    } };

    ghost invariant = { λ w. (length w.sent.items ≤ w.room) × (w.room ≤ vec_capacity w.sent) × (w.given ≤ length w.incoming.items) × (0 < w.pace) };
}

impl MemoryWire {
    ghost use Rattle.std.specs.Prelude.{◌≡◌, ◌<◌, [], IfOk};
    ghost use Rattle.outside.specs.Wires.{silence};

    /// A wire that gives these bytes, at most `pace` in one receive, and has room for `room` bytes to
    /// be sent.
    pub fn new(
        alloc: Global,
        incoming: &[u8],
        pace: usize,
        room: usize,
    ) -> Result<MemoryWire, Memory>
        requires { 0 < pace }
        ensures { IfOk result (λ w. w ≡ record { talk = silence; left = incoming.now; pace = pace; room = room; faults = 0 }) }
    {
        let sent = Vec::with_capacity(alloc, room)?;
        let incoming = Vec::from_slice(alloc, incoming)?;
        Ok(MemoryWire {
            sent,
            room,
            incoming,
            given: 0,
            pace,
            ended: false,
            faults: 0,
        })
    }

    /// The bytes that were sent.
    pub fn sent(&self) -> &[u8]
        ensures { result.now ≡ self.now.talk.sent }
    {
        &self.sent
    }

    /// The bytes that were received.
    pub fn received(&self) -> &[u8]
        ensures { result.now ≡ self.now.talk.received }
    {
        &self.incoming[..self.given]
    }

    /// Whether the end of the bytes was given.
    pub fn ended(&self) -> bool
        ensures { result ≡ self.now.talk.ended }
    {
        self.ended
    }

    /// How many sends failed; at 2^64 - 1 it stands still.
    pub fn faults(&self) -> u64
        ensures { result ≡ self.now.faults }
    {
        self.faults
    }
}

// Copies a front of the bytes left, at most `pace` of them, and says how many these are.
fn hand_over(left: &[u8], into: &mut [u8], pace: usize) -> usize
    requires left { 0 < length left.now }
    requires room { 0 < length into.old }
    requires pace { 0 < pace }
    ensures count { result ≡ min (min (length left.now) (length into.old)) pace }
    ensures some { 0 < result }
    ensures within { result ≤ length into.new }
    ensures inside { result ≤ length left.now }
    ensures front { take result into.new ≡ take result left.now }
{
    let count = left.len().min(into.len()).min(pace);
    into[..count].copy_from_slice(&left[..count]);
    count
}

impl Wire for MemoryWire {
    ghost use Rattle.std.specs.Prelude.{◌≡◌, ◌≢◌, ◌≤◌, ◌<◌, ◌+◌, ◌-◌, ◌^◌, ◌++◌, min, nat_le, length, [], Some, if◌then◌else◌};
    ghost use Rattle.outside.specs.Causes.{HasCause};
    ghost use Rattle.outside.specs.Wires.{Sends, Receives, with_sent};

    ghost talk = { λ w. Some w.talk };

    ghost faults = { λ w. w.faults };

    fn send(&mut self, piece: &[u8]) -> WriteStep
        ensures sends { Sends (Some self.old.talk) (Some self.new.talk) result piece.now }
        ensures cause { HasCause self.old.faults self.new.faults (result ≡ WriteStep.Failed) }

        // It fails exactly where the piece goes beyond the room, and else takes it whole.
        ensures within { length self.old.talk.sent + length piece.now ≤ self.old.room → self.new ≡ record self.old { talk = with_sent piece.now self.old.talk } }
        ensures beyond { self.old.room < length self.old.talk.sent + length piece.now → self.new ≡ record self.old { faults = min (self.old.faults + 1) (2 ^ 64 - 1) } }
        ensures answer { result ≡ (if nat_le (length self.old.talk.sent + length piece.now) self.old.room then WriteStep.Wrote (length piece.now) else WriteStep.Failed) }
    {
        if piece.len() > self.room - self.sent.len() {
            self.faults = self.faults.saturating_add(1);
            return WriteStep::Failed;
        }
        self.sent.extend_from_slice(piece).unwrap();
        WriteStep::Wrote(piece.len())
    }

    fn receive(&mut self, into: &mut [u8]) -> ReadStep
        requires { 0 < length into.old }
        ensures receives { Receives (Some self.old.talk) (Some self.new.talk) result into.new }
        ensures cause { HasCause self.old.faults self.new.faults (result ≡ ReadStep.Failed) }

        // It gives as many bytes as there are and fit and its pace allows, and the end where none is left.
        ensures end { self.old.left ≡ [] → result ≡ ReadStep.End }
        ensures all { self.old.left ≢ [] → result ≡ ReadStep.Read (min (min (length self.old.left) (length into.old)) self.old.pace) }
        ensures faults { self.new.faults ≡ self.old.faults }
    {
        let left = &self.incoming[self.given..];
        if left.is_empty() {
            self.ended = true;
            return ReadStep::End;
        }
        let count = hand_over(left, into, self.pace);
        self.given += count;
        ReadStep::Read(count)
    }
}
