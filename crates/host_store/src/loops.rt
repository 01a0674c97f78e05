// A wire in memory that gives what was sent over it.
ghost use Rattle.std.specs.Prelude.{◌≡◌, ◌<◌, ◌≤◌, length, take, min};

use cool_base::Memory;
use outside::{ReadStep, Wire, WriteStep};
use std::alloc::Global;
use std::marker::Model;

/// How many bytes go over a wire in memory.
pub const WIRE_ROOM: usize = 4_194_304;

/// A wire in memory that gives what was sent over it, and its end after the last byte. A send that
/// goes beyond `WIRE_ROOM` bytes in all, or that comes after the end, fails and sends nothing. No
/// receive fails.
#[derive(Drop)]
pub struct LoopWire {
    bytes: Vec<u8>,
    given: usize,
    ended: bool,
    faults: u64,
}

impl Model for LoopWire {
    ghost use Rattle.std.specs.Prelude.{◌≡◌, ◌≤◌, length, take, true, vec_capacity};
    ghost use Rattle.host_store.specs.Loops.{LoopSeen};
    ghost use Rattle.host_store.specs.declared.loops.TheConstants.{WIRE_ROOM};

    ghost Value = { LoopSeen };

    ghost view = { λ w. record {
      talk = record {
        sent = w.bytes.items;
        received = take w.given w.bytes.items;
        ended = w.ended;
      };
      faults = w.faults;
    } };

    ghost invariant = { λ w. (w.given ≤ length w.bytes.items) × (length w.bytes.items ≤ WIRE_ROOM)
        × (WIRE_ROOM ≤ vec_capacity w.bytes) × (w.ended ≡ true → w.given ≡ length w.bytes.items) };
}

impl LoopWire {
    ghost use Rattle.std.specs.Prelude.{◌≡◌, ◌≤◌, length, IfOk};
    ghost use Rattle.outside.specs.Wires.{silence};
    ghost use Rattle.host_store.specs.Loops.{IsLoop};
    ghost use Rattle.host_store.specs.declared.loops.TheConstants.{WIRE_ROOM};

    /// A wire over which nothing was said. Its whole room is taken.
    pub fn new(alloc: Global) -> Result<LoopWire, Memory>
        ensures { IfOk result (λ w. w ≡ record { talk = silence; faults = 0 }) }
    {
        let bytes = Vec::with_capacity(alloc, WIRE_ROOM)?;
        Ok(LoopWire {
            bytes,
            given: 0,
            ended: false,
            faults: 0,
        })
    }

    /// Nothing was said over it from now on. It takes no memory.
    pub fn clear(&mut self)
        ensures { self.new ≡ record self.old { talk = silence } }
    {
        self.bytes.clear();
        self.given = 0;
        self.ended = false;
    }

    /// What was received is a front of what was sent, which is at most `WIRE_ROOM` bytes.
    pub fn is_loop(&self)
        ensures front { IsLoop self.now.talk }
        ensures room { length self.now.talk.sent ≤ WIRE_ROOM }
    {
        let _given = self.given;
    }
}

// Copies a front of the bytes left, and says how many these are.
fn hand_over(left: &[u8], into: &mut [u8]) -> usize
    requires left { 0 < length left.now }
    requires room { 0 < length into.old }
    ensures some { 0 < result }
    ensures within { result ≤ length into.new }
    ensures inside { result ≤ length left.now }
    ensures front { take result into.new ≡ take result left.now }
{
    let count = left.len().min(into.len());
    into[..count].copy_from_slice(&left[..count]);
    count
}

impl Wire for LoopWire {
    ghost use Rattle.std.specs.Prelude.{◌≡◌, ◌<◌, length, Some};
    ghost use Rattle.outside.specs.Causes.{HasCause};
    ghost use Rattle.outside.specs.Wires.{Sends, Receives};

    ghost talk = { λ w. Some w.talk };

    ghost faults = { λ w. w.faults };

    fn send(&mut self, piece: &[u8]) -> WriteStep
        ensures sends { Sends (Some self.old.talk) (Some self.new.talk) result piece.now }
        ensures cause { HasCause self.old.faults self.new.faults (result ≡ WriteStep.Failed) }
    {
        if self.ended || piece.len() > WIRE_ROOM - self.bytes.len() {
            self.faults = self.faults.saturating_add(1);
            return WriteStep::Failed;
        }
        self.bytes.extend_from_slice(piece).unwrap();
        WriteStep::Wrote(piece.len())
    }

    fn receive(&mut self, into: &mut [u8]) -> ReadStep
        requires { 0 < length into.old }
        ensures receives { Receives (Some self.old.talk) (Some self.new.talk) result into.new }
        ensures cause { HasCause self.old.faults self.new.faults (result ≡ ReadStep.Failed) }
    {
        let left = &self.bytes[self.given..];
        if left.is_empty() {
            self.ended = true;
            return ReadStep::End;
        }
        let count = hand_over(left, into);
        self.given += count;
        ReadStep::Read(count)
    }
}
