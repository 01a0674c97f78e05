//! What stands in the queue, and what each end knows of its own.
ghost use Rattle.std.specs.Prelude.{◌≡◌, ◌∷◌, ◌++◌, [], List, ⊤};
ghost use Rattle.paint_yard.specs.Hands.{hand, no_hand};

use cool_base::DocId;
use crossbeam_channel::protocol::{Lesson, Outcome, Protocol, Split};

/// How many works the queue holds at most.
pub const MOST_WORKS: usize = 256;

/// What stands in the queue: a work of a document, or the mark that one thread is to end.
#[derive(Drop)]
pub enum Item<W> {
    Work(DocId, W),
    Close,
}

/// What an end has done: the items that it put at the back, and those that it took at the front,
/// each in order. It exists in proofs alone.
pub struct Hand<W> {
    pub put: std::collections::LinkedList<Item<W>>,
    pub took: std::collections::LinkedList<Item<W>>,
}

/// The rule that asks nothing of what the queue holds.
pub(crate) struct Open;

impl<W> Protocol<Item<W>, Hand<W>> for Open {
    ghost holds = { λ items hands. ⊤ };

    ghost first = { no_hand };
}

/// An item is put at the back: it stands behind all that this end has put.
pub(crate) struct Puts;

impl<W> Outcome<Item<W>, Hand<W>> for Puts {
    ghost then = { λ old item new. new ≡ hand (old.put ++ item ∷ []) old.took };
}

impl<W> Lesson<Item<W>, Hand<W>> for Puts {
    ghost fact = { λ old items. ⊤ };
}

/// An item is taken at the front: it stands behind all that this end has taken.
pub(crate) struct Takes;

impl<W> Outcome<Item<W>, Hand<W>> for Takes {
    ghost then = { λ old item new. new ≡ hand old.put (old.took ++ item ∷ []) };
}

impl<W> Lesson<Item<W>, Hand<W>> for Takes {
    ghost fact = { λ old items. ⊤ };
}

/// A further end begins with nothing done.
pub(crate) struct Fresh;

impl<W> Split<Hand<W>> for Fresh {
    ghost left = { λ old. old };

    ghost right = { λ old. no_hand };
}
