//! The rule of the lock over `atomic_table`, and the kinds of step.
ghost use Rattle.turn_lock.specs.Turns.{Kept, Takes, Publishes, GivesBack, Looks, Settles};
ghost use Rattle.turn_lock.specs.Turns.{first_view, copy_of, merged, spent};

use crate::booked::Booked;
use crate::view::View;
use atomic_table::{Join, Play, Seat, Shared, Split, Table, TableRule};
use std::alloc::Global;
use std::snapshot::Snapshot;

pub type TableSeat<T> = Seat<Option<T>, View<<T as Booked>::Entry, <T as Booked>::Ground>>;

pub type Top<T> = Shared<
    Option<T>,
    View<<T as Booked>::Entry, <T as Booked>::Ground>,
    Snapshot<T>,
    Turns,
>;

pub type SeatTable<T> = Table<
    Option<T>,
    View<<T as Booked>::Entry, <T as Booked>::Ground>,
    Snapshot<T>,
    Turns,
    Global,
>;

/// The rule.
pub struct Turns;

impl<T: Booked> TableRule<Option<T>, View<T::Entry, T::Ground>, Snapshot<T>> for Turns {
    ghost holds = { λ _ s. Kept T.footing T.book s };

    ghost first = { λ k. first_view (T.footing k.value) (T.book k.value) };
}

pub struct Take;

impl<T: Booked> Play<Option<T>, View<T::Entry, T::Ground>> for Take {
    ghost then = { λ _ m n w. Takes T.footing T.book m n w };
}

pub struct Publish;

impl<T: Booked> Play<Option<T>, View<T::Entry, T::Ground>> for Publish {
    ghost then = { λ _ m n w. Publishes T.footing T.book m n w };
}

pub struct GiveBack;

impl<T: Booked> Play<Option<T>, View<T::Entry, T::Ground>> for GiveBack {
    ghost then = { λ _ m n w. GivesBack T.footing T.book m n w };
}

pub struct Look;

impl<T: Booked> Play<Option<T>, View<T::Entry, T::Ground>> for Look {
    ghost then = { λ _ m n w. Looks T.footing T.book m n w };
}

pub struct Settle;

impl<T: Booked> Play<Option<T>, View<T::Entry, T::Ground>> for Settle {
    ghost then = { λ _ m n w. Settles T.footing T.book m n w };
}

pub struct Divide;

impl<E, G> Split<View<E, G>> for Divide {
    ghost left = { λ v. v };

    ghost right = { copy_of };
}

pub struct Merge;

impl<E, G> Join<View<E, G>> for Merge {
    ghost both = { merged };

    ghost spent = { spent };
}
