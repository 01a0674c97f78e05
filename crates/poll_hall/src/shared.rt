//! `HallPort`.
ghost use Rattle.std.specs.Prelude.{◌≡◌, List, [], MatchResult};
ghost use Rattle.hall_machine.specs.declared.words.OpenDocument.{OpenDocument};
ghost use Rattle.hall_machine.specs.States.{Collects};
ghost use Rattle.poll_hall.specs.Says.{CollectSays};
ghost use Rattle.poll_hall.specs.Ports.{Finds, Stays, seat_view};

use crate::hall::Hall;
use crate::port::Port;
use cool_base::{DocId, FileId};
use hall_machine::{CloseFault, Entered, HallFault, HallState, Labelled, MailBag, Owner, Refused};
use std::sync::Wait;
use turn_lock::Seat;

/// A port over a shared hall, with a seat of its lock. Each call may wait for its turn.
#[derive(Drop)]
pub struct HallPort<'a, R: Wait, P: Drop, M: Labelled> {
    pub rt: &'a R,
    pub hall: &'a Hall<P, M>,
    pub seat: Seat<HallState<P, M>>,
    pub who: u32,
    pub ghost of_hall: { seat.lock ≡ hall.now.lock },
}

impl<'a, R: Wait, P: Drop, M: Labelled> Port<P, M> for HallPort<'a, R, P, M> {
    ghost view = { λ p. seat_view p.seat p.who };

    fn enter(&mut self, file: &FileId) -> Result<Entered, HallFault> {
        self.hall.enter(self.rt, &mut self.seat, self.who, file).0
    }

    fn post(&mut self, doc: DocId, mail: M, urgent: bool) -> Result<(), Refused<M>> {
        let (answer, _count) = self
            .hall
            .post(self.rt, &mut self.seat, self.who, doc, mail, urgent);
        answer
    }

    fn collect(&mut self, doc: DocId, bag: MailBag<M>) -> (Result<u32, Owner>, MailBag<M>)
        requires { bag ≡ [] }
        ensures { Finds (seat_view self.old.seat self.old.who)
            (CollectSays M.tag self.old.who doc.0)
            (λ (old new : List (OpenDocument P M)). MatchResult result.0
            (λ _. Collects doc.0 result.1 old new) (λ _. Stays old new)) (result.0, result.1)
            (seat_view self.new.seat self.new.who) }
    {
        let (answer, _count) = self
            .hall
            .collect(self.rt, &mut self.seat, self.who, doc, bag);
        answer
    }

    fn depart(&mut self, doc: DocId, to: u32, parcel: P) -> Result<(), Refused<P>> {
        let (answer, _count) = self
            .hall
            .depart(self.rt, &mut self.seat, self.who, doc, to, parcel);
        answer
    }

    fn arrive(&mut self) -> Option<(DocId, P)> {
        let (answer, _count) = self.hall.arrive(self.rt, &mut self.seat, self.who);
        answer
    }

    fn close(&mut self, doc: DocId) -> Result<(), CloseFault> {
        self.hall.close(self.rt, &mut self.seat, self.who, doc).0
    }

    fn advise(&mut self) -> u32 {
        self.hall.advise(self.rt, &mut self.seat).0
    }

    fn spare(&mut self) -> bool {
        self.hall.spare(self.rt, &mut self.seat).0
    }

    fn find(&mut self, file: &FileId) -> Option<DocId> {
        self.hall.find(self.rt, &mut self.seat, file).0
    }

    fn open_count(&mut self) -> u32 {
        self.hall.open_count(self.rt, &mut self.seat).0
    }

    fn polls(&mut self) -> u32 {
        self.hall.polls(self.rt, &mut self.seat).0
    }
}
