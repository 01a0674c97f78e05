//! The steps of one turn: take, the value out of the slot, publish, give back.
ghost use Rattle.std.specs.Prelude.{◌≡◌, true, None, Some, [], ◌∷◌};
ghost use Rattle.turn_lock.specs.Lists.{IsPrefix};
ghost use Rattle.turn_lock.specs.Seats.{StaysOrAdds};
ghost use Rattle.turn_lock.specs.Turns.{IsIdle, took, published, given};

use crate::booked::Booked;
use crate::turns::{GiveBack, Publish, TableSeat, Take, Top};
use std::sync::Wait;

const TURN: usize = 0;

const COUNT: usize = 1;

const VALUE: usize = 0;

/// Waits until the seat has the turn, and with it the value.
pub fn take_turn<T: Booked, W: Wait>(rt: &W, top: &Top<T>, place: &mut TableSeat<T>)
    requires table { (place.old.table_id ≡ top.now.table_id) × (top.now.table_id.words ≡ 2)
        × (top.now.table_id.slots ≡ 1) }
    requires idle { IsIdle place.old.me }
    ensures place { place.new.table_id ≡ place.old.table_id }
    ensures value { (x : T) × (place.new.me ≡ (took place.old.me.0 (T.book x), (0, Some x) ∷ []))
        × (place.old.me.0.footing ≡ Some (T.footing x)) × IsPrefix place.old.me.0.seen (T.book x) }
{
    for _ in rt.forever() {
        if top.compare_exchange::<Take>(place, TURN, 0, 1) == 0 {
            return;
        }
        top.park(rt, TURN, 1);
    }
    unreachable!()
}

/// The value that the seat has.
pub fn take_out<T: Booked>(top: &Top<T>, place: &mut TableSeat<T>) -> T
    requires table { place.old.table_id ≡ top.now.table_id }
    requires value { (x : T) × (place.old.me.1 ≡ (0, Some x) ∷ []) }
    ensures place { place.new.table_id ≡ place.old.table_id }
    ensures value { place.old.me.1 ≡ (0, Some result) ∷ [] }
    ensures after { place.new.me ≡ (place.old.me.0, (0, None) ∷ []) }
{
    match top.exchange(place, VALUE, None) {
        Some(value) => value,
        None => unreachable!(),
    }
}

/// Publishes the count of the value, brings the value home and gives the turn back.
pub fn give_back<T: Booked>(top: &Top<T>, place: &mut TableSeat<T>, value: T)
    requires table { (place.old.table_id ≡ top.now.table_id) × (top.now.table_id.words ≡ 2)
        × (top.now.table_id.slots ≡ 1) }
    requires holds { (place.old.me.0.holds ≡ true) × (place.old.me.1 ≡ (0, None) ∷ []) }
    requires ground { place.old.me.0.footing ≡ Some (T.footing value) }
    requires grows { StaysOrAdds place.old.me.0.seen (T.book value) }
    ensures place { place.new.table_id ≡ place.old.table_id }
    ensures after { place.new.me ≡ (given (published place.old.me.0 (T.book value)), []) }
{
    let count = value.count();
    top.exchange(place, VALUE, Some(value));
    top.swap::<Publish>(place, COUNT, count);
    top.swap::<GiveBack>(place, TURN, 0);
    top.wake_one(TURN);
}
