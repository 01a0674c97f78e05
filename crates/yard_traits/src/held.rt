// A yard in memory.
ghost use Rattle.std.specs.Prelude.{◌≡◌, ◌==◌, ◌≤◌, ◌<◌, IfSome, length, vec_capacity};
ghost use Rattle.std.specs.List.{position};

use crate::yards::Yard;
use cool_base::{DocId, Memory};
use http_server::Log;
use std::alloc::Global;

/// A work that is held, with its number.
#[derive(Drop)]
pub struct HeldWork<W> {
    pub number: u64,
    pub doc: DocId,
    pub work: W,
}

/// A yard in memory that takes a work where it holds fewer than its room allows. Works are numbered
/// from 1 in the order in which they are taken.
#[derive(Drop)]
pub struct HeldYard<W: Drop> {
    // What the yard tells. No code reads it, and it has no bytes.
    took: Log<DocId, W>,
    held: Vec<HeldWork<W>>,
    room: usize,
    count: u64,
    full: u64,
    ghost fits: { room ≤ vec_capacity held },
}

impl<W: Drop> HeldYard<W> {
    ghost use Rattle.std.specs.Prelude.{◌≡◌, ◌==◌, [], None, IfOk, OnOk, OnErr, MatchOption};
    ghost use Rattle.std.specs.Prelude.{vec_len};
    ghost use Rattle.std.specs.List.{position};
    ghost use Rattle.yard_traits.specs.Works.{has_room, OutAt};

    /// A yard that holds nothing and took nothing.
    pub fn new(alloc: Global, room: usize) -> Result<HeldYard<W>, Memory>
        ensures nothing { IfOk result (λ yard. (yard.held.items ≡ []) × (yard.took.items ≡ [])) }
        ensures room { IfOk result (λ yard. yard.room ≡ room) }
        ensures counts { IfOk result (λ yard. (yard.count ≡ 0) × (yard.full ≡ 0)) }
    {
        let held = Vec::with_capacity(alloc, room)?;
        Ok(HeldYard {
            took: Log::new(),
            held,
            room,
            count: 0,
            full: 0,
        })
    }

    /// Gives the yard this room from now on. It keeps what it holds, also where that is more.
    pub fn set_room(&mut self, room: usize) -> Result<(), Memory>
        ensures room { OnOk result (self.new.room ≡ room) }
        ensures refused { OnErr result (self.new.room ≡ self.old.room) }
        ensures held { self.new.held.items ≡ self.old.held.items }
        ensures took { self.new.took ≡ self.old.took }
        ensures counts { (self.new.count ≡ self.old.count) × (self.new.full ≡ self.old.full) }
    {
        self.held.reserve(room)?;
        self.room = room;
        Ok(())
    }

    /// The works that are held, in the order in which they were taken.
    pub fn held(&self) -> &[HeldWork<W>]
        ensures { result.now ≡ self.now.held.items }
    {
        self.held.as_slice()
    }

    /// How many moments were full; at 2^64 - 1 it stands still.
    pub fn full(&self) -> u64
        ensures { result ≡ self.now.full }
    {
        self.full
    }

    /// Whether the next work is taken.
    pub fn has_room(&self) -> bool
        ensures { result ≡ has_room (vec_len self.now.held) self.now.room self.now.count }
    {
        self.held.len() < self.room && self.count < u64::MAX
    }

    /// Takes the work with this number out, which is then no longer held; None exactly where no
    /// such work is held.
    pub fn take_out(&mut self, number: u64) -> Option<HeldWork<W>>
        ensures held { MatchOption (position (λ work. work.number == number) self.old.held.items)
            ((result ≡ None) × (self.new.held.items ≡ self.old.held.items))
            (λ i. OutAt i self.old.held.items result self.new.held.items) }
        ensures took { self.new.took ≡ self.old.took }
        ensures room { self.new.room ≡ self.old.room }
        ensures counts { (self.new.count ≡ self.old.count) × (self.new.full ≡ self.old.full) }
    {
        match place_of(&self.held, number) {
            Some(at) => Some(self.held.remove(at)),
            None => None,
        }
    }
}

// Where the work with this number is held.
fn place_of<W>(held: &[HeldWork<W>], number: u64) -> Option<usize>
    ensures place { result ≡ position (λ work. work.number == number) held.now }
    ensures within { IfSome result (λ i. i < length held.now) }
{
    held.iter().position(|work| work.number == number)
}

impl<W: Drop> Yard<W> for HeldYard<W> {
    ghost use Rattle.std.specs.Prelude.{◌≡◌, ◌≤◌, ◌+◌, ◌-◌, ◌^◌, ◌++◌, ◌∷◌, [], min, true, false};
    ghost use Rattle.std.specs.Prelude.{Some, MatchOption, vec_len};
    ghost use Rattle.outside.specs.Causes.{Rose};
    ghost use Rattle.yard_traits.specs.Yards.{TookOne};
    ghost use Rattle.yard_traits.specs.Works.{has_room};

    ghost took = { λ yard. Some yard.took.items };

    ghost full = { λ yard. yard.full };

    fn offer(&mut self, doc: DocId, work: W) -> Option<W>
        ensures told { MatchOption result
            (TookOne (Some self.old.took.items) doc work (Some self.new.took.items))
            (λ back. (back ≡ work) × (Some self.new.took.items ≡ Some self.old.took.items)) }
        ensures cause { MatchOption result (self.new.full ≡ self.old.full)
            (λ _. Rose self.old.full self.new.full) }
        ensures later { self.old.full ≤ self.new.full }

        // It is given back exactly where there is no room for it, and else held with the next
        // number.
        ensures room { MatchOption result
            (has_room (vec_len self.old.held) self.old.room self.old.count ≡ true)
            (λ _. has_room (vec_len self.old.held) self.old.room self.old.count ≡ false) }
        ensures held { MatchOption result
            (self.new.held.items ≡ self.old.held.items
            ++ (record { number = self.old.count + 1; doc = doc; work = work }) ∷ [])
            (λ _. self.new.held.items ≡ self.old.held.items) }
        ensures count { MatchOption result (self.new.count ≡ self.old.count + 1)
            (λ _. self.new.count ≡ self.old.count) }
        ensures full { MatchOption result (self.new.full ≡ self.old.full)
            (λ _. self.new.full ≡ min (self.old.full + 1) (2 ^ 64 - 1)) }
        ensures stays { self.new.room ≡ self.old.room }
    {
        if !self.has_room() {
            self.full = self.full.saturating_add(1);
            return Some(work);
        }
        self.count += 1;
        self.took = self.took.and(&doc, &work);
        let number = self.count;
        self.held.push(HeldWork { number, doc, work }).unwrap();
        None
    }
}
