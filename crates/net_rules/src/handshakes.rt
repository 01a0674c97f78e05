// The handshakes that go on.
ghost use Rattle.std.specs.Prelude.{◌≡◌, ◌≤◌, ℕ, List, length};

use cool_base::{LinkId, Memory};
use std::alloc::Global;
use std::marker::Model;

/// The most handshakes that go on at once.
pub const MOST_HANDSHAKES: usize = 1_024;

/// How many milliseconds a handshake may take.
pub const HANDSHAKE_MILLIS: u64 = 10_000;

// A handshake: its link, and the moment at which it began, in milliseconds.
#[derive(Clone, Copy)]
struct Begun {
    link: u64,
    moment: u64,
}

impl Model for Begun {
    ghost use Rattle.net_rules.specs.Begun.{Shake};

    ghost Value = { Shake };

    ghost view = { λ b. record { link = b.link; moment = b.moment } };

    ghost inverse = { λ s. record { link = s.link; moment = s.moment } };
}

/// The handshakes that go on, in the order in which they began. Contracts see them as a list of links
/// with the moments, in milliseconds, at which they began.
#[derive(Drop)]
pub struct Handshakes {
    begun: Vec<Begun>,
}

impl Model for Handshakes {
    ghost use Rattle.std.specs.Prelude.{List, ◌≤◌, length};
    ghost use Rattle.net_rules.specs.Begun.{Shake};

    ghost Value = { List Shake };

    ghost view = { λ h. h.begun.items };

    ghost invariant = { λ h. length h.begun.items ≤ 1024 };
}

impl Handshakes {
    ghost use Rattle.std.specs.Prelude.{◌≡◌, ◌≤◌, ◌<◌, ◌↔◌, ◌++◌, ◌∷◌, [], not, ◌==◌, IsTrue, OnOk};
    ghost use Rattle.std.specs.Prelude.{OnErr, length, filter};
    ghost use Rattle.net_rules.specs.Begun.{Shake, first_late, without};

    /// No handshake goes on.
    pub fn new(alloc: Global) -> Handshakes
        ensures { result ≡ [] }
    {
        Handshakes {
            begun: Vec::new(alloc),
        }
    }

    /// Whether one more may begin.
    pub fn has_room(&self) -> bool
        ensures { IsTrue result ↔ (length self.now < MOST_HANDSHAKES) }
    {
        self.begun.len() < MOST_HANDSHAKES
    }

    /// The handshake of this link begins. After `Memory` nothing has changed.
    pub fn begin(&mut self, link: LinkId, moment: u64) -> Result<(), Memory>
        requires { length self.old < MOST_HANDSHAKES }
        ensures ok { OnOk result
            (self.new ≡ self.old ++ record { link = link.0; moment = moment } ∷ []) }
        ensures err { OnErr result (self.new ≡ self.old) }
    {
        self.begun.push(Begun {
            link: link.0,
            moment,
        })?;
        Ok(())
    }

    /// The handshake of this link ended. Where none goes on, nothing changes.
    pub fn end(&mut self, link: LinkId)
        ensures { self.new ≡ without link.0 self.old }
    {
        self.begun.retain(|begun| begun.link != link.0);
    }

    /// The first link whose handshake takes `HANDSHAKE_MILLIS` or more at this moment.
    pub fn late(&self, now: u64) -> Option<LinkId>
        ensures { result ≡ first_late now self.now }
    {
        match self.begun.iter().find(|begun| now.saturating_sub(begun.moment) >= HANDSHAKE_MILLIS) {
            Some(begun) => Some(LinkId(begun.link)),
            None => None,
        }
    }
}
