//! The lock and its seats.
ghost use Rattle.std.specs.Prelude.{◌≡◌, ℕ, ◌≤◌, Some, [], ◌∷◌, length, IfOk};
ghost use Rattle.std.specs.Fn.{FnOnceReturnsAtMut, FnOnceTakesAtMut};
ghost use Rattle.atomic_table.specs.Seated.{TableId};
ghost use Rattle.turn_lock.specs.Lists.{IsPrefix, times};
ghost use Rattle.turn_lock.specs.Seats.{Known, Meets, MayBecome, StaysOrAdds, after_turn, copied};
ghost use Rattle.turn_lock.specs.Seats.{seat_of_two};

use crate::booked::Booked;
use crate::steps::{give_back, take_out, take_turn};
use crate::turns::{Divide, Look, Merge, SeatTable, Settle, TableSeat};
use cool_base::Memory;
use std::alloc::Global;
use std::marker::Model;
use std::snapshot::Snapshot;
use std::sync::Wait;

/// A value that one thread at a time has its turn with. It may be shared by threads where the value
/// may cross threads.
#[derive(Drop)]
pub struct TurnLock<T: Booked> {
    table: SeatTable<T>,
}

impl<T: Booked> Model for TurnLock<T> {
    ghost use Rattle.std.specs.Prelude.{◌≡◌};
    ghost use Rattle.atomic_table.specs.Seated.{TableId, table_id_coded};

    ghost Value = { TableId };

    ghost coded = { table_id_coded };

    ghost view = { λ l. l.table.shared.table_id };

    ghost invariant = { λ l. (l.table.shared.table_id.words ≡ 2)
        × (l.table.shared.table_id.slots ≡ 1) };
}

/// What a thread makes its turns with. It may go to another thread.
#[derive(Drop)]
pub struct Seat<T: Booked> {
    place: TableSeat<T>,
}

impl<T: Booked> Model for Seat<T> {
    ghost use Rattle.turn_lock.specs.Seats.{Known};
    ghost use Rattle.turn_lock.specs.Turns.{IsIdle, known};

    ghost Value = { Known T.Entry T.Ground };

    ghost view = { λ s. known s.place.table_id s.place.me.0 };

    ghost invariant = { λ s. IsIdle s.place.me };
}

impl<T: Booked> TurnLock<T> {
    /// A lock over a value, and its first seat.
    ///
    /// # Errors
    ///
    /// `Memory` where a growth was refused; the value is then dropped.
    pub fn new(alloc: Global, value: T) -> Result<(TurnLock<T>, Seat<T>), Memory>
        ensures { IfOk result
            (λ r. r.1 ≡ record {
              lock = r.0;
              footing = Some
                  (T.footing value);
              seen = T.book value;
              own = [];
              noted = 0;
              turns = 0;
            }) }
    {
        let count = value.count();
        let about = Snapshot::of(&value);
        let mut slots = Vec::new(alloc);
        if slots.push(Some(value)).is_err() {
            return Err(Memory);
        }
        match SeatTable::<T>::new(alloc, &[0, count], slots, &about) {
            Ok((table, place)) => Ok((TurnLock { table }, Seat { place })),
            Err(_) => Err(Memory),
        }
    }

    /// Calls `f` once on the value, and gives its answer. It waits until no other seat has its
    /// turn.
    ///
    /// It is one turn of the seat, and the value's list begins with all that the seat had seen.
    /// Afterwards the seat has seen the list that `f` left, and an entry
    /// that `f` added is the seat's own, at its place.
    pub fn with<X, W: Wait, F: FnOnce(&mut T) -> X>(&self, rt: &W, seat: &mut Seat<T>, f: F) -> X
        requires lock { seat.old.lock ≡ self.now }
        requires call { (x : T) → Meets T.footing T.book seat.old x
            → FnOnceTakesAtMut F.FnOnce f x }
        requires keeps { (x y : T) (r : X) → Meets T.footing T.book seat.old x
            → FnOnceReturnsAtMut F.FnOnce f x r y → MayBecome T.footing T.book x y }
        ensures { (x : T) × (y : T) × Meets T.footing T.book seat.old x
            × FnOnceReturnsAtMut F.FnOnce f x result y
            × (seat.new ≡ after_turn T.footing T.book seat.old x y) }
    {
        let top = &self.table.shared;
        take_turn(rt, top, &mut seat.place);
        let mut value = take_out(top, &mut seat.place);
        let answer = f(&mut value);
        give_back(top, &mut seat.place, value);
        answer
    }

    /// The count at a step of this call, which is not below what the seat had seen or noted. It
    /// waits for nobody.
    pub fn look(&self, seat: &mut Seat<T>) -> u64
        requires { seat.old.lock ≡ self.now }
        ensures count { (length seat.old.seen ≤ result) × (seat.old.noted ≤ result) }
        ensures kept { seat.new ≡ record seat.old { noted = result } }
    {
        self.table.shared.load::<Look>(&mut seat.place, 1)
    }

    /// A further seat, which has seen as much and has no entry of its own. It waits for nobody.
    pub fn split(&self, seat: &mut Seat<T>) -> Seat<T>
        requires { seat.old.lock ≡ self.now }
        ensures stays { seat.new ≡ seat.old }
        ensures copy { result ≡ copied seat.old }
    {
        let place = self.table.shared.split_seat::<Divide>(&mut seat.place);
        Seat { place }
    }

    /// One seat of two: it has seen the longer list, of which the other is a prefix, and has the
    /// own entries of both. It waits for nobody.
    pub fn join(&self, seat: &mut Seat<T>, other: Seat<T>)
        requires first { seat.old.lock ≡ self.now }
        requires second { other.lock ≡ self.now }
        ensures both { seat.new ≡ seat_of_two seat.old other }
        ensures prefixes { IsPrefix seat.old.seen seat.new.seen
            × IsPrefix other.seen seat.new.seen }
        ensures once { (p : ℕ) → times p seat.new.own ≤ 1 }
    {
        let top = &self.table.shared;
        let Seat { place } = other;
        top.join_seat::<Merge>(&mut seat.place, place);
        top.load::<Settle>(&mut seat.place, 1);
    }
}
