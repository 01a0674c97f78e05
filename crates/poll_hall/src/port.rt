//! `Port`.
ghost use Rattle.std.specs.Prelude.{◌≡◌, ◌<◌, ℕ, [], Ok, Err, MatchResult, MatchOption};
ghost use Rattle.hall_machine.specs.States.{EntersOne, Posts, Collects, Departs, Arrives, Closes};
ghost use Rattle.poll_hall.specs.Says.{EnterSays, PostSays, CollectSays, DepartSays, ArriveSays};
ghost use Rattle.poll_hall.specs.Says.{CloseSays, AdviseSays, SpareSays, FindSays, CountSays};
ghost use Rattle.poll_hall.specs.Says.{PollsSays};
ghost use Rattle.poll_hall.specs.Ports.{PortView, Finds, Stays};

use cool_base::{DocId, FileId};
use hall_machine::{CloseFault, Entered, HallFault, Labelled, MailBag, Owner, Refused};

/// A hall as one poll sees it: each call is the one of `HallState` of its name, with its condition
/// and refusals, made for that poll.
pub trait Port<P: Drop, M: Labelled> {
    ghost view: { Self → PortView P M };

    /// Opens the file: `There`, `HallFull`, `BookFull` or `Fresh`, in this order.
    fn enter(&mut self, file: &FileId) -> Result<Entered, HallFault>
        ensures { Finds (view self.old) (EnterSays (view self.old).who file.now)
            (λ old new. MatchResult result (λ e. EntersOne (view self.old).who file.now e old new)
            (λ _. Stays old new)) result (view self.new) };

    /// Posts a mail: `Gone`, `MailFull` or `BookFull`, in this order, with the mail.
    fn post(&mut self, doc: DocId, mail: M, urgent: bool) -> Result<(), Refused<M>>
        ensures { Finds (view self.old) (PostSays M.tag (view self.old).who doc.0 mail urgent)
            (λ old new. MatchResult result (λ _. Posts doc.0 mail old new)
            (λ _. Stays old new)) result (view self.new) };

    /// The mails that waited longest, at most 64, in the bag, which is empty at first: `Gone` or
    /// `NotHere`.
    fn collect(&mut self, doc: DocId, bag: MailBag<M>) -> (Result<u32, Owner>, MailBag<M>)
        requires { bag ≡ [] }
        ensures { Finds (view self.old) (CollectSays M.tag (view self.old).who doc.0)
            (λ old new. MatchResult result.0 (λ _. Collects doc.0 result.1 old new)
            (λ _. Stays old new)) (result.0, result.1) (view self.new) };

    /// Sends the document and its parcel to the target, which is one of the polls of the hall:
    /// `Gone`, `NotHere` or `BookFull`, with the parcel.
    fn depart(&mut self, doc: DocId, to: u32, parcel: P) -> Result<(), Refused<P>>
        requires { to < (view self.old).ground_of.polls }
        ensures { Finds (view self.old) (DepartSays (view self.old).who doc.0 to parcel)
            (λ old new. MatchResult result (λ _. Departs doc.0 to parcel old new)
            (λ _. Stays old new)) result (view self.new) };

    /// The parcel in transit to this poll with the lowest id, or None.
    fn arrive(&mut self) -> Option<(DocId, P)>
        ensures { Finds (view self.old) (ArriveSays (view self.old).who)
            (λ old new. MatchOption result (Stays old new)
            (λ r. Arrives (view self.old).who r.0.0 r.1 old new)) result (view self.new) };

    /// Closes the document: `Gone`, `NotHere` or `Waiting`.
    fn close(&mut self, doc: DocId) -> Result<(), CloseFault>
        ensures { Finds (view self.old) (CloseSays (view self.old).who doc.0)
            (λ old new. MatchResult result (λ _. Closes doc.0 old new) (λ _. Stays old new)) result
            (view self.new) };

    /// The poll with the fewest documents, the lowest of several.
    fn advise(&mut self) -> u32
        ensures { Finds (view self.old) AdviseSays Stays result (view self.new) };

    /// Whether the book has room to spare.
    fn spare(&mut self) -> bool
        ensures { Finds (view self.old) SpareSays Stays result (view self.new) };

    /// The open document of the file.
    fn find(&mut self, file: &FileId) -> Option<DocId>
        ensures { Finds (view self.old) (FindSays file.now) Stays result (view self.new) };

    /// How many documents are open.
    fn open_count(&mut self) -> u32
        ensures { Finds (view self.old) CountSays Stays result (view self.new) };

    /// How many polls the hall has.
    fn polls(&mut self) -> u32
        ensures { Finds (view self.old) PollsSays Stays result (view self.new) };
}
