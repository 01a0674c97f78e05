//! The calls that change the hall.
ghost use Rattle.std.specs.Prelude.{◌≡◌, ◌<◌, ℕ, Some, []};
ghost use Rattle.hall_machine.specs.declared.words.Ground.{Ground};
ghost use Rattle.poll_hall.specs.Says.{EnterSays, PostSays, CollectSays, DepartSays, ArriveSays};
ghost use Rattle.poll_hall.specs.Says.{CloseSays};
ghost use Rattle.poll_hall.specs.Turned.{Turned};

use crate::turns::collect_turn;
use cool_base::{DocId, FileId};
use hall_machine::{CloseFault, Entered, HallFault, HallState, Labelled, MailBag, Owner, Refused};
use std::sync::Wait;
use turn_lock::{Booked, Seat, TurnLock};

/// A hall behind one lock. Each call is one turn, made with a seat of its lock; it waits for its
/// turn, and gives its answer with the number of entries of the book after it.
#[derive(Drop)]
pub struct Hall<P: Drop, M: Labelled> {
    pub lock: TurnLock<HallState<P, M>>,
}

impl<P: Drop, M: Labelled> Hall<P, M> {
    /// `HallState::enter`, in one turn: `There` where the file is open; else `HallFull` at 64 open
    /// documents; else `BookFull` where
    /// the book is full; else `Fresh` with the next id, owned by the caller.
    pub fn enter<R: Wait>(
        &self,
        rt: &R,
        seat: &mut Seat<HallState<P, M>>,
        who: u32,
        file: &FileId,
    ) -> (Result<Entered, HallFault>, u64)
        requires { seat.old.lock ≡ self.now.lock }
        ensures { Turned seat.old (EnterSays who file.now) result.0 result.1 seat.new }
    {
        self.lock.with(rt, seat, |hall: &mut HallState<P, M>| {
            let answer = hall.enter(who, file);
            hall.is_reached();
            (answer, hall.count())
        })
    }

    /// `HallState::post`, in one turn: `Gone` where the document isn't open; else `MailFull` at
    /// 2,048 waiting mails, 4,096 for an
    /// urgent one; else `BookFull`. A refused mail comes back.
    pub fn post<R: Wait>(
        &self,
        rt: &R,
        seat: &mut Seat<HallState<P, M>>,
        who: u32,
        doc: DocId,
        mail: M,
        urgent: bool,
    ) -> (Result<(), Refused<M>>, u64)
        requires { seat.old.lock ≡ self.now.lock }
        ensures { Turned seat.old
            (PostSays M.tag who doc.0 mail urgent) result.0 result.1 seat.new }
    {
        self.lock.with(rt, seat, |hall: &mut HallState<P, M>| {
            let answer = hall.post(who, doc, mail, urgent);
            hall.is_reached();
            (answer, hall.count())
        })
    }

    /// `HallState::collect`, in one turn: the mails that waited longest, at most 64, in the bag,
    /// which is empty at first; `Gone` or
    /// `NotHere` where the caller isn't the owner. It takes no memory.
    pub fn collect<R: Wait>(
        &self,
        rt: &R,
        seat: &mut Seat<HallState<P, M>>,
        who: u32,
        doc: DocId,
        bag: MailBag<M>,
    ) -> ((Result<u32, Owner>, MailBag<M>), u64)
        requires lock { seat.old.lock ≡ self.now.lock }
        requires empty { bag ≡ [] }
        ensures { Turned seat.old (CollectSays M.tag who doc.0)
            (result.0.0, result.0.1) result.1 seat.new }
    {
        self.lock.with(rt, seat, |hall: &mut HallState<P, M>| {
            let answer = collect_turn(hall, who, doc, bag);
            hall.is_reached();
            (answer, hall.count())
        })
    }

    /// `HallState::depart`, in one turn: the document and its parcel are on their way to the
    /// target, which is one of the polls of the
    /// seat's hall; `Gone`, `NotHere` or `BookFull`, with the parcel. It takes no memory.
    pub fn depart<R: Wait>(
        &self,
        rt: &R,
        seat: &mut Seat<HallState<P, M>>,
        who: u32,
        doc: DocId,
        to: u32,
        parcel: P,
    ) -> (Result<(), Refused<P>>, u64)
        requires lock { seat.old.lock ≡ self.now.lock }
        requires target { (g : Ground) → seat.old.footing ≡ Some g → to < g.polls }
        ensures { Turned seat.old (DepartSays who doc.0 to parcel) result.0 result.1 seat.new }
    {
        self.lock.with(rt, seat, |hall: &mut HallState<P, M>| {
            let answer = hall.depart(who, doc, to, parcel);
            hall.is_reached();
            (answer, hall.count())
        })
    }

    /// `HallState::arrive`, in one turn: the parcel in transit to the caller with the lowest id;
    /// None where there is none. It takes
    /// no memory.
    pub fn arrive<R: Wait>(
        &self,
        rt: &R,
        seat: &mut Seat<HallState<P, M>>,
        who: u32,
    ) -> (Option<(DocId, P)>, u64)
        requires { seat.old.lock ≡ self.now.lock }
        ensures { Turned seat.old (ArriveSays who) result.0 result.1 seat.new }
    {
        self.lock.with(rt, seat, |hall: &mut HallState<P, M>| {
            let answer = hall.arrive(who);
            hall.is_reached();
            (answer, hall.count())
        })
    }

    /// `HallState::close`, in one turn: `Gone` or `NotHere` where the caller isn't the owner,
    /// `Waiting` with the number of mails that
    /// wait. It takes no memory.
    pub fn close<R: Wait>(
        &self,
        rt: &R,
        seat: &mut Seat<HallState<P, M>>,
        who: u32,
        doc: DocId,
    ) -> (Result<(), CloseFault>, u64)
        requires { seat.old.lock ≡ self.now.lock }
        ensures { Turned seat.old (CloseSays who doc.0) result.0 result.1 seat.new }
    {
        self.lock.with(rt, seat, |hall: &mut HallState<P, M>| {
            let answer = hall.close(who, doc);
            hall.is_reached();
            (answer, hall.count())
        })
    }
}
