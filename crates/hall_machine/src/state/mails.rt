//! What the owner does with its document: it collects the mails, and closes it.
ghost use Rattle.std.specs.Prelude.{◌≡◌, [], MatchResult, length};
ghost use Rattle.hall_machine.specs.Machine.{collect_answer, close_answer};
ghost use Rattle.hall_machine.specs.Entries.{stage_of, entry, written, collected};
ghost use Rattle.hall_machine.specs.States.{Answers, Collects, Closes};

use super::HallState;
use crate::bag::MailBag;
use crate::moves::take_mails;
use crate::reads::{check_close, check_collect};
use crate::words::{CloseFault, Entry, Ground, HallAct, Labelled, Owner};
use cool_base::DocId;

impl<P: Drop, M: Labelled> HallState<P, M> {
    /// Takes the oldest mails of the document, at most 64, and gives the bag back with them, in
    /// order, and their number: `Gone` exactly where the document isn't open, `NotHere` exactly
    /// where the caller isn't its owner. The bag is empty at first; after a refusal it comes back
    /// empty, and the state is unchanged. It takes no memory.
    pub fn collect(
        &mut self,
        who: u32,
        doc: DocId,
        bag: MailBag<M>,
    ) -> (Result<u32, Owner>, MailBag<M>)
        requires { bag ≡ [] }
        ensures ground { self.new.ground_of ≡ self.old.ground_of }
        ensures answers { Answers self.old.ground_of self.old.book
            (collect_answer (stage_of self.old.book) who doc.0)
            (collected who doc.0
            (collect_answer (stage_of self.old.book) who doc.0) self.old.book) result.0
            self.new.book }
        ensures values { MatchResult result.0
            (λ n. (n ≡ length result.1) × Collects doc.0 result.1 self.old.opens self.new.opens)
            (λ _. (result.1 ≡ []) × (self.new.opens ≡ self.old.opens)) }
    {
        let ground = Ground {
            polls: self.polls,
            room: self.room,
        };
        let entries = self.entries.len() as u64;
        let (at, n) = match check_collect(
            ground,
            self.next,
            self.opens.as_slice(),
            entries,
            self.due,
            who,
            doc.0,
        ) {
            Ok(found) => found,
            Err(why) => return (Err(why), bag),
        };
        if n == 0 {
            return (Ok(0), bag);
        }
        let bag = take_mails(self.opens.as_mut_slice(), at, bag);
        self.entries.push_reserved(Entry {
            who,
            doc: doc.0,
            act: HallAct::Collect(n),
        });
        self.due -= u64::from(n);
        (Ok(n), bag)
    }

    /// Closes the document: `Gone` exactly where it isn't open, `NotHere` exactly where the caller
    /// isn't its owner, `Waiting` with the number of mails that wait for it, where it is above 0.
    /// After a refusal the state is unchanged. It takes no memory.
    pub fn close(&mut self, who: u32, doc: DocId) -> Result<(), CloseFault>
        ensures ground { self.new.ground_of ≡ self.old.ground_of }
        ensures answers { Answers self.old.ground_of self.old.book
            (close_answer (stage_of self.old.book) who doc.0)
            (written (close_answer (stage_of self.old.book) who doc.0)
            (entry who doc.0 HallAct.Close) self.old.book) result self.new.book }
        ensures values { MatchResult result (λ _. Closes doc.0 self.old.opens self.new.opens)
            (λ _. self.new.opens ≡ self.old.opens) }
    {
        let ground = Ground {
            polls: self.polls,
            room: self.room,
        };
        let entries = self.entries.len() as u64;
        let at = match check_close(
            ground,
            self.next,
            self.opens.as_slice(),
            entries,
            self.due,
            who,
            doc.0,
        ) {
            Ok(at) => at,
            Err(why) => return Err(why),
        };
        drop(self.opens.remove(at));
        self.entries.push_reserved(Entry {
            who,
            doc: doc.0,
            act: HallAct::Close,
        });
        self.due -= 1;
        Ok(())
    }
}
