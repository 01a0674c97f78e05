//! The calls that change nothing.
ghost use Rattle.std.specs.Prelude.{◌≡◌};
ghost use Rattle.poll_hall.specs.Says.{AdviseSays, SpareSays, FindSays, CountSays, PollsSays};
ghost use Rattle.poll_hall.specs.Turned.{Turned};

use crate::hall::Hall;
use cool_base::{DocId, FileId};
use hall_machine::{HallState, Labelled};
use std::sync::Wait;
use turn_lock::{Booked, Seat};

impl<P: Drop, M: Labelled> Hall<P, M> {
    /// `HallState::advise`, in one turn: the poll with the fewest documents, the lowest of several.
    pub fn advise<R: Wait>(&self, rt: &R, seat: &mut Seat<HallState<P, M>>) -> (u32, u64)
        requires { seat.old.lock ≡ self.now.lock }
        ensures { Turned seat.old AdviseSays result.0 result.1 seat.new }
    {
        self.lock.with(
            rt,
            seat,
            |hall: &mut HallState<P, M>| (hall.advise(), hall.count()),
        )
    }

    /// `HallState::spare`, in one turn: whether the book has room to spare.
    pub fn spare<R: Wait>(&self, rt: &R, seat: &mut Seat<HallState<P, M>>) -> (bool, u64)
        requires { seat.old.lock ≡ self.now.lock }
        ensures { Turned seat.old SpareSays result.0 result.1 seat.new }
    {
        self.lock.with(
            rt,
            seat,
            |hall: &mut HallState<P, M>| (hall.spare(), hall.count()),
        )
    }

    /// `HallState::find`, in one turn: the open document of the file.
    pub fn find<R: Wait>(
        &self,
        rt: &R,
        seat: &mut Seat<HallState<P, M>>,
        file: &FileId,
    ) -> (Option<DocId>, u64)
        requires { seat.old.lock ≡ self.now.lock }
        ensures { Turned seat.old (FindSays file.now) result.0 result.1 seat.new }
    {
        self.lock.with(
            rt,
            seat,
            |hall: &mut HallState<P, M>| (hall.find(file), hall.count()),
        )
    }

    /// `HallState::open_count`, in one turn: how many documents are open.
    pub fn open_count<R: Wait>(&self, rt: &R, seat: &mut Seat<HallState<P, M>>) -> (u32, u64)
        requires { seat.old.lock ≡ self.now.lock }
        ensures { Turned seat.old CountSays result.0 result.1 seat.new }
    {
        self.lock.with(
            rt,
            seat,
            |hall: &mut HallState<P, M>| (hall.open_count(), hall.count()),
        )
    }

    /// `HallState::polls`, in one turn: how many polls the hall has.
    pub fn polls<R: Wait>(&self, rt: &R, seat: &mut Seat<HallState<P, M>>) -> (u32, u64)
        requires { seat.old.lock ≡ self.now.lock }
        ensures { Turned seat.old PollsSays result.0 result.1 seat.new }
    {
        self.lock.with(
            rt,
            seat,
            |hall: &mut HallState<P, M>| (hall.polls(), hall.count()),
        )
    }
}
