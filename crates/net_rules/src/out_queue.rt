// The frames that wait for a link.
ghost use Rattle.std.specs.Prelude.{◌≡◌, ◌≤◌};

use cool_base::{ListOf, Memory};
use std::alloc::Global;
use std::collections::VecDeque;
use std::marker::Model;

/// What all frames that wait for one link may take, in bytes: a whole window of tiles, and as much
/// again.
pub const OUT_LIMIT: usize = 33_554_432;

/// What a frame that waits takes beside its bytes.
pub const FRAME_COST: usize = 64;

/// What came of a frame.
#[derive(Clone, Copy, Debug, PartialEq, Eq)]
pub enum Offered {
    /// No frame is on its way: this one goes now.
    Now,
    /// It waits behind the others.
    Waits,
    /// There is no room for it.
    Full,
}

/// One frame is on its way to a link, and others wait behind it. Contracts see whether one is on its way
/// and those that wait, in order.
#[derive(Drop)]
pub struct OutQueue {
    waiting: VecDeque<ListOf<u8>>,
    taken: usize,
    busy: bool,
}

impl Model for OutQueue {
    ghost use Rattle.std.specs.Prelude.{◌≡◌, ◌≤◌, [], false};
    ghost use Rattle.net_rules.specs.Queues.{Queue, taken_by};

    ghost Value = { Queue };

    ghost view = { λ q. record { busy = q.busy; waiting = q.waiting.items } };

    ghost invariant = { λ q. (q.taken ≡ taken_by q.waiting.items) × (q.taken ≤ 33554432)
        × (q.busy ≡ false → q.waiting.items ≡ []) };
}

impl OutQueue {
    ghost use Rattle.std.specs.Prelude.{◌≡◌, ◌++◌, ◌∷◌, [], true, false, IfOk, OnErr, MatchOption};
    ghost use Rattle.net_rules.specs.Queues.{Offers, IsFirst, Goes};

    /// No frame is on its way, and none waits.
    pub fn new(alloc: Global) -> OutQueue
        ensures { result ≡ record { busy = false; waiting = [] } }
    {
        OutQueue {
            waiting: VecDeque::new(alloc),
            taken: 0,
            busy: false,
        }
    }

    /// A frame comes: it goes now exactly where none is on its way, and from then on one is; else it
    /// waits, exactly where all that wait have room with it. After `Full` and `Memory` nothing has
    /// changed.
    pub fn offer(&mut self, alloc: Global, frame: &[u8]) -> Result<Offered, Memory>
        ensures offers { IfOk result (λ offered. Offers self.old frame.now offered self.new) }
        ensures err { OnErr result (self.new ≡ self.old) }
    {
        if !self.busy {
            self.busy = true;
            return Ok(Offered::Now);
        }
        if frame.len() > OUT_LIMIT {
            return Ok(Offered::Full);
        }
        let taken = self.taken + frame.len() + FRAME_COST;
        if taken > OUT_LIMIT {
            return Ok(Offered::Full);
        }
        let kept = ListOf::of(frame.to_vec(alloc)?);
        self.waiting.push_back(kept)?;
        self.taken = taken;
        Ok(Offered::Waits)
    }

    /// The first frame that waits.
    #[tactic(auto, using(crate::proofs::Firsts::before_the_rest))]
    pub fn first(&self) -> Option<&[u8]>
        ensures { MatchOption result (self.now.waiting ≡ []) (λ frame. IsFirst frame.now self.now) }
    {
        match self.waiting.front() {
            Some(frame) => Some(frame.get()),
            None => None,
        }
    }

    /// The frame on its way has left: the first that waits goes now, and waits no longer. Where none
    /// waits, none is on its way from then on.
    pub fn left(&mut self) -> Option<ListOf<u8>>
        ensures { Goes self.old result self.new }
    {
        match self.waiting.pop_front() {
            Some(frame) => {
                self.taken -= frame.get().len() + FRAME_COST;
                self.busy = true;
                Some(frame)
            }
            None => {
                self.busy = false;
                None
            }
        }
    }

    /// Something else is on its way: frames wait behind it.
    pub fn block(&mut self)
        ensures { self.new ≡ record self.old { busy = true } }
    {
        self.busy = true;
    }

    /// Whether a frame is on its way.
    pub fn is_busy(&self) -> bool
        ensures { result ≡ self.now.busy }
    {
        self.busy
    }
}
