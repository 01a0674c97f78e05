// How long a take waits.
use std::marker::Model;

/// The most milliseconds that a take waits.
pub const MOST_WAIT: u64 = 10;

/// How long a take waits for the system. Contracts see how many takes in a row found nothing since
/// something was last found or given; more than 2^32 - 1 count as so many.
#[derive(Drop)]
pub struct Pace {
    idle: u32,
}

impl Model for Pace {
    ghost use Rattle.std.specs.Prelude.{◌<◌, ◌^◌, ℕ};

    ghost Value = { ℕ };

    ghost view = { λ p. p.idle };

    ghost invariant = { λ p. p.idle < 2 ^ 32 };
}

impl Pace {
    ghost use Rattle.std.specs.Prelude.{◌≡◌, ◌+◌, ◌-◌, ◌^◌, min};
    ghost use Rattle.net_rules.specs.Waits.{wait_after};

    /// No take found nothing yet.
    pub fn new() -> Pace
        ensures { result ≡ 0 }
    {
        Pace { idle: 0 }
    }

    /// How many milliseconds the next take waits: none where the one before found something or a frame
    /// was given since, else one for each take in a row that found nothing, at most `MOST_WAIT`.
    pub fn wait(&self) -> u64
        ensures { result ≡ wait_after self.now }
    {
        (self.idle as u64).min(MOST_WAIT)
    }

    /// A take found nothing.
    pub fn found_nothing(&mut self)
        ensures { self.new ≡ min (self.old + 1) (2 ^ 32 - 1) }
    {
        self.idle = self.idle.saturating_add(1);
    }

    /// Something was found, or a frame was given.
    pub fn stirred(&mut self)
        ensures { self.new ≡ 0 }
    {
        self.idle = 0;
    }
}
