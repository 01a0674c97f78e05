// What dials a host.
ghost use Rattle.std.specs.Prelude.{◌≡◌, ◌<◌, ◌+◌, ℕ, Option, IfOk, OnOk, OnErr, true};
ghost use Rattle.std.specs.Option.{option_map};
ghost use Rattle.outside.specs.Causes.{HasCause};
ghost use Rattle.wopi_dial.specs.Dials.{DialTold, dialled, IsFresh, with_talk, dial_failed};

use outside::Wire;
use std::alloc::Global;
use thiserror::Error;

/// Why no wire was dialled.
#[derive(Clone, Copy, Debug, PartialEq, Eq, Error)]
pub enum DialFault {
    #[error("the host was not reached")]
    Failed,
    #[error("out of memory")]
    Memory,
}

/// A way to a host.
pub trait Dial {
    /// The wire of a talk.
    type W: Wire;

    /// The talks that were hung up, in order, and how often it was dialled, where the dial tells them.
    ghost told: { Self → Option DialTold };

    /// How many wires are dialled and not hung up.
    ghost away: { Self → ℕ };

    /// How many faults there were. The count stays at 2^64 - 1 once it is there.
    ghost faults: { Self → ℕ };

    /// A new wire, over which nothing was said and which had no fault. It is dialled once more, also
    /// where no wire is had, and no talk is added.
    fn dial(&mut self, alloc: Global) -> Result<Self::W, DialFault>
        ensures told { told self.new ≡ option_map dialled (told self.old) }
        ensures fresh { IfOk result (λ wire. IsFresh (told self.new) (Self.W.talk wire)) }
        ensures sound { IfOk result (λ wire. Self.W.faults wire ≡ 0) }
        ensures out { OnOk result (away self.new ≡ away self.old + 1) }
        ensures none { OnErr result (away self.new ≡ away self.old) }
        ensures cause { HasCause (faults self.old) (faults self.new) (dial_failed result ≡ true) };

    /// Hangs a wire up, which adds its talk. The dial's count of faults rises where the wire's had. It
    /// takes no memory. Some wire must be dialled and not hung up.
    fn hang(&mut self, wire: Self::W)
        requires { 0 < away self.old }
        ensures told { told self.new ≡ with_talk (told self.old) (Self.W.talk wire) }
        ensures home { away self.new + 1 ≡ away self.old }
        ensures cause { HasCause (faults self.old) (faults self.new) (0 < Self.W.faults wire) };
}
