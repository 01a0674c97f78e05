// A net of links.
ghost use Rattle.std.specs.Prelude.{◌≡◌, ℕ, List, Option, Ok, IfOk, OnErr, MatchOption, true, false};
ghost use Rattle.outside.specs.Causes.{HasCause};
ghost use Rattle.net_traits.specs.Nets.{NetTold, LinkEvent, TakeTold, GiveTold, Releases, Adopts, Tells};

use cool_base::{LinkId, ListOf, Memory};
use std::alloc::Global;

/// The answer of a take.
#[derive(Debug, Drop)]
pub enum Taken {
    /// A link opened.
    Opened(LinkId),
    /// A link said something.
    Said(LinkId, ListOf<u8>),
    /// A link left.
    Left(LinkId),
    /// No event waits.
    Nothing,
    /// The net failed, and its count of failed takes rose.
    Failed,
}

/// The answer of a give.
#[derive(Clone, Copy, Debug, PartialEq, Eq)]
pub enum Given {
    /// The frame is on its way.
    Sent,
    /// The net failed, and its count of failed gives rose.
    Failed,
}

/// Links to browsers: they open, say something and leave, and are given frames. A link can be released
/// from one net and adopted by another.
pub trait Net {
    /// A link on its way from one net to another.
    type Link: Send + Drop;

    /// What the net tells, where it tells it.
    ghost told: { Self → Option NetTold };

    /// The events that wait for a link on its way.
    ghost carried: { Self.Link → List LinkEvent };

    /// How many takes failed. The count stays at 2^64 - 1 once it is there.
    ghost take_faults: { Self → ℕ };

    /// How many gives failed. The count stays at 2^64 - 1 once it is there.
    ghost give_faults: { Self → ℕ };

    /// The next event.
    fn take(&mut self, alloc: Global) -> Result<Taken, Memory>
        ensures told { TakeTold (told self.old) result (told self.new) }
        ensures cause { HasCause (take_faults self.old) (take_faults self.new) (result ≡ Ok Taken.Failed) }
        ensures gives { give_faults self.new ≡ give_faults self.old };

    /// Gives a frame to a link.
    fn give(&mut self, alloc: Global, link: LinkId, frame: &[u8]) -> Result<Given, Memory>
        ensures told { GiveTold (told self.old) link frame.now result (told self.new) }
        ensures cause { HasCause (give_faults self.old) (give_faults self.new) (result ≡ Ok Given.Failed) }
        ensures takes { take_faults self.new ≡ take_faults self.old };

    /// The link, which is no longer held; None exactly where it wasn't held. It takes no memory.
    fn release(&mut self, link: LinkId) -> Option<Self::Link>
        ensures told { MatchOption result
            (Tells (λ a b. Releases a link false b) (told self.old) (told self.new))
            (λ _. Tells (λ a b. Releases a link true b) (told self.old) (told self.new)) }
        ensures takes { take_faults self.new ≡ take_faults self.old }
        ensures gives { give_faults self.new ≡ give_faults self.old };

    /// Holds a link that another net released, under the name that it gets here.
    fn adopt(&mut self, alloc: Global, link: Self::Link) -> Result<LinkId, Memory>
        ensures told { IfOk result (λ id. Tells (λ a b. Adopts a id (carried link) b) (told self.old) (told self.new)) }
        ensures kept { OnErr result (told self.new ≡ told self.old) }
        ensures takes { take_faults self.new ≡ take_faults self.old }
        ensures gives { give_faults self.new ≡ give_faults self.old };
}
