// The machine's clock, and a gate that does nothing.
use net_traits::{Clock, Gate};
use std::rt;
use std::time::Instant;

/// The seconds since it was made, by the machine's steady clock. Where that can't be read, the last
/// moment stands still.
#[derive(Drop)]
pub struct MachineClock<'a, R> {
    rt: &'a R,
    began: Option<Instant>,
    last: u64,
}

impl<'a, R: rt::Clock> MachineClock<'a, R> {
    /// A clock that begins at 0.
    pub fn new(rt: &'a R) -> MachineClock<'a, R> {
        MachineClock {
            rt,
            began: Instant::now(rt).ok(),
            last: 0,
        }
    }
}

impl<'a, R: rt::Clock> Clock for MachineClock<'a, R> {
    ghost use Rattle.std.specs.Prelude.{None};

    ghost moments = { λ _. None };

    #[tactic(auto, unfolding(net_traits::specs::Clocks::Ticks))]
    fn now(&mut self) -> u64 {
        if let Some(began) = self.began {
            if let Ok(passed) = began.elapsed(self.rt) {
                self.last = passed.as_secs();
            }
        }
        self.last
    }
}

/// A gate that does nothing.
#[derive(Drop)]
pub struct OpenGate;

impl Gate for OpenGate {
    fn pass(&mut self, _work: u64) {}
}
