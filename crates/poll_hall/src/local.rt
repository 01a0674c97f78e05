//! `LocalPort`.
ghost use Rattle.std.specs.Prelude.{◌≡◌, [], MatchResult};
ghost use Rattle.hall_machine.specs.States.{Collects};
ghost use Rattle.poll_hall.specs.Says.{CollectSays};
ghost use Rattle.poll_hall.specs.Ports.{Finds, Stays, local_view};

use crate::port::Port;
use crate::turns::collect_turn;
use cool_base::{DocId, FileId};
use hall_machine::{CloseFault, Entered, HallFault, HallState, Labelled, MailBag, Owner, Refused};

/// A port over a plain state, for one thread. It waits for nobody, and tells the state.
#[derive(Drop)]
pub struct LocalPort<'a, P: Drop, M: Labelled> {
    pub hall: &'a mut HallState<P, M>,
    pub who: u32,
}

impl<'a, P: Drop, M: Labelled> Port<P, M> for LocalPort<'a, P, M> {
    ghost view = { λ p. local_view p.hall.now p.who };

    fn enter(&mut self, file: &FileId) -> Result<Entered, HallFault> {
        self.hall.enter(self.who, file)
    }

    fn post(&mut self, doc: DocId, mail: M, urgent: bool) -> Result<(), Refused<M>> {
        self.hall.post(self.who, doc, mail, urgent)
    }

    fn collect(&mut self, doc: DocId, bag: MailBag<M>) -> (Result<u32, Owner>, MailBag<M>)
        requires { bag ≡ [] }
        ensures { Finds (local_view self.old.hall.now self.old.who)
            (CollectSays M.tag self.old.who doc.0)
            (λ old new. MatchResult result.0 (λ _. Collects doc.0 result.1 old new)
            (λ _. Stays old new)) (result.0, result.1) (local_view self.new.hall.now self.new.who) }
    {
        collect_turn(self.hall, self.who, doc, bag)
    }

    fn depart(&mut self, doc: DocId, to: u32, parcel: P) -> Result<(), Refused<P>> {
        self.hall.depart(self.who, doc, to, parcel)
    }

    fn arrive(&mut self) -> Option<(DocId, P)> {
        self.hall.arrive(self.who)
    }

    fn close(&mut self, doc: DocId) -> Result<(), CloseFault> {
        self.hall.close(self.who, doc)
    }

    fn advise(&mut self) -> u32 {
        self.hall.advise()
    }

    fn spare(&mut self) -> bool {
        self.hall.spare()
    }

    fn find(&mut self, file: &FileId) -> Option<DocId> {
        self.hall.find(file)
    }

    fn open_count(&mut self) -> u32 {
        self.hall.open_count()
    }

    fn polls(&mut self) -> u32 {
        self.hall.polls()
    }
}
