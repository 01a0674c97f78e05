// A dial in memory.
ghost use Rattle.std.specs.Prelude.{◌≡◌, ◌<◌};

use crate::dials::{Dial, DialFault};
use cool_base::{ListOf, Memory};
use outside::MemoryWire;
use std::alloc::Global;
use std::marker::Model;

/// A dial whose wires give stated answers, each in turn, and have room for stated bytes to be sent. It
/// tells the talks. A dial beyond the answers fails.
#[derive(Drop)]
pub struct MemoryDial {
    answers: Vec<ListOf<u8>>,
    dialled: usize,
    hung: Vec<MemoryWire>,
    pace: usize,
    room: usize,
    dials: u64,
    faults: u64,
}

impl Model for MemoryDial {
    ghost use Rattle.wopi_dial.specs.Dials.{Booth};
    ghost use Rattle.std.specs.Prelude.{◌≤◌, ◌<◌, ◌-◌, length, drop, map, vec_capacity};

    ghost Value = { Booth };

    ghost view = { λ d. record {
      waiting = drop d.dialled d.answers.items;
      told = record { talks = map (λ w. w.talk) d.hung.items; dials = d.dials };
      away = d.dialled - length d.hung.items;
      pace = d.pace;
      room = d.room;
      faults = d.faults;
    } };

    ghost invariant = { λ d. (length d.hung.items ≤ d.dialled) × (d.dialled ≤ length d.answers.items) × (length d.answers.items ≤ vec_capacity d.hung) × (0 < d.pace) };
}

impl MemoryDial {
    ghost use Rattle.std.specs.Prelude.{◌≡◌, ◌<◌, [], ◌∷◌, ◌++◌, OnOk, OnErr, map};
    ghost use Rattle.outside.specs.Wires.{Held};

    /// A dial without answers, whose wires give at most `pace` bytes in one receive and have room for
    /// `room` bytes to be sent.
    pub fn new(alloc: Global, pace: usize, room: usize) -> MemoryDial
        requires { 0 < pace }
        ensures { result ≡ record { waiting = []; told = record { talks = []; dials = 0 }; away = 0; pace = pace; room = room; faults = 0 } }
    {
        MemoryDial {
            answers: Vec::new(alloc),
            dialled: 0,
            hung: Vec::new(alloc),
            pace,
            room,
            dials: 0,
            faults: 0,
        }
    }

    /// One more answer, for the wire that is dialled behind all the others.
    pub fn add(&mut self, alloc: Global, answer: &[u8]) -> Result<(), Memory>
        ensures ok { OnOk result (self.new ≡ record self.old { waiting = self.old.waiting ++ answer.now ∷ [] }) }
        ensures err { OnErr result (self.new ≡ self.old) }
    {
        let answer = ListOf::of(Vec::from_slice(alloc, answer)?);
        let more = self.answers.len() - self.hung.len() + 1;
        self.hung.reserve(more)?;
        self.answers.push(answer)?;
        Ok(())
    }

    /// The wires that were hung up, in order.
    pub fn hung(&self) -> &[MemoryWire]
        ensures { map (λ w. w.talk) result.now ≡ self.now.told.talks }
    {
        &self.hung
    }

    /// How often it was dialled, also where no wire was had; at 2^64 - 1 the count stands still.
    pub fn dials(&self) -> u64
        ensures { result ≡ self.now.told.dials }
    {
        self.dials
    }

    /// How many dials failed and wires had faults; at 2^64 - 1 it stands still.
    pub fn faults(&self) -> u64
        ensures { result ≡ self.now.faults }
    {
        self.faults
    }
}

impl Dial for MemoryDial {
    type W = MemoryWire;

    ghost use Rattle.std.specs.Prelude.{◌≡◌, ◌<◌, ◌+◌, ◌-◌, ◌^◌, [], ◌∷◌, Some, Err, IfOk, OnOk, OnErr, true, min};
    ghost use Rattle.outside.specs.Causes.{HasCause};
    ghost use Rattle.outside.specs.Wires.{silence};
    ghost use Rattle.wopi_dial.specs.Dials.{dialled, IsFresh, with_talk, dial_failed};

    ghost told = { λ d. Some d.told };

    ghost away = { λ d. d.away };

    ghost faults = { λ d. d.faults };

    fn dial(&mut self, alloc: Global) -> Result<MemoryWire, DialFault>
        ensures told { Some self.new.told ≡ Some (dialled self.old.told) }
        ensures fresh { IfOk result (λ wire. IsFresh (Some self.new.told) (Some wire.talk)) }
        ensures sound { IfOk result (λ wire. wire.faults ≡ 0) }
        ensures out { OnOk result (self.new.away ≡ self.old.away + 1) }
        ensures none { OnErr result (self.new.away ≡ self.old.away) }
        ensures cause { HasCause self.old.faults self.new.faults (dial_failed result ≡ true) }

        // The wire gives the first of the answers; a dial fails exactly where there is none.
        ensures gives { IfOk result (λ wire. self.old.waiting ≡ wire.left ∷ self.new.waiting) }
        ensures made { IfOk result (λ wire. wire ≡ record { talk = silence; left = wire.left; pace = self.old.pace; room = self.old.room; faults = 0 }) }
        ensures fails { self.old.waiting ≡ [] → result ≡ Err DialFault.Failed }
        ensures failed { result ≡ Err DialFault.Failed → self.old.waiting ≡ [] }
    {
        self.dials = self.dials.saturating_add(1);
        if self.dialled == self.answers.len() {
            self.faults = self.faults.saturating_add(1);
            return Err(DialFault::Failed);
        }
        let answer = self.answers[self.dialled].get();
        match MemoryWire::new(alloc, answer, self.pace, self.room) {
            Ok(wire) => {
                self.dialled += 1;
                Ok(wire)
            }
            Err(_) => Err(DialFault::Memory),
        }
    }

    fn hang(&mut self, wire: MemoryWire) {
        if wire.faults() > 0 {
            self.faults = self.faults.saturating_add(1);
        }
        self.hung.push_reserved(wire);
    }
}
