// Clocks, and the gate before each work.
ghost use Rattle.std.specs.Prelude.{◌<◌, List, Option, ℕ, length};
ghost use Rattle.net_traits.specs.Clocks.{Ticks};

use std::marker::Model;

/// A clock.
pub trait Clock {
    /// The moments to come, where the clock tells them. There is always one.
    ghost moments: { Self → Option (List ℕ) };

    /// The moment, in seconds. Where the moments are told it is the first of those to come, which is
    /// taken off, but the last one stays.
    fn now(&mut self) -> u64
        ensures { Ticks (moments self.old) result (moments self.new) };
}

/// What a worker passes before each work. It may wait there, and does nothing else.
pub trait Gate {
    /// Passes before the work with this number, counted from 1.
    fn pass(&mut self, work: u64);
}

/// A clock in memory, which gives stated moments and then the last of them for ever.
#[derive(Drop)]
pub struct MemoryClock {
    moments: Vec<u64>,
    given: usize,
}

impl Model for MemoryClock {
    ghost use Rattle.std.specs.Prelude.{◌<◌, List, ℕ, length, drop};

    ghost Value = { List ℕ };

    ghost view = { λ c. drop c.given c.moments.items };

    ghost invariant = { λ c. c.given < length c.moments.items };
}

impl MemoryClock {
    ghost use Rattle.std.specs.Prelude.{◌≡◌, ◌<◌, length};

    /// A clock that gives these moments in order. There must be one.
    pub fn new(moments: Vec<u64>) -> MemoryClock
        requires { 0 < length moments.items }
        ensures { result ≡ moments.items }
    {
        MemoryClock { moments, given: 0 }
    }
}

impl Clock for MemoryClock {
    ghost use Rattle.std.specs.Prelude.{Some};

    ghost moments = { λ c. Some c };

    #[tactic(auto, unfolding(crate::specs::Clocks::Ticks))]
    fn now(&mut self) -> u64 {
        let moment = self.moments[self.given];
        if self.given + 1 < self.moments.len() {
            self.given += 1;
            moment
        } else {
            moment
        }
    }
}
