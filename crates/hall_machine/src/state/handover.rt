//! How a document goes from one poll to another.
ghost use Rattle.std.specs.Prelude.{◌≡◌, ◌<◌, MatchOption, MatchResult};
ghost use Rattle.std.specs.Option.{option_map};
ghost use Rattle.hall_machine.specs.Machine.{depart_answer, arrive_answer};
ghost use Rattle.hall_machine.specs.Entries.{stage_of, entry, written, arrived};
ghost use Rattle.hall_machine.specs.States.{Answers, with_value, Departs, Arrives};

use super::HallState;
use crate::checks::check_depart;
use crate::moves::{land, send_off};
use crate::reads::check_arrive;
use crate::words::{Entry, Ground, HallAct, Labelled, Refused};
use cool_base::DocId;

impl<P: Drop, M: Labelled> HallState<P, M> {
    /// Sends the document to another poll, with the parcel: `Gone` exactly where it isn't open,
    /// `NotHere` exactly where the caller isn't its owner, `BookFull` exactly where the book is
    /// full. After a refusal the parcel comes back, and the state is unchanged. The target is one
    /// of the polls. It takes no memory.
    pub fn depart(&mut self, who: u32, doc: DocId, to: u32, parcel: P) -> Result<(), Refused<P>>
        requires { to < self.old.ground_of.polls }
        ensures ground { self.new.ground_of ≡ self.old.ground_of }
        ensures answers { Answers self.old.ground_of self.old.book
            (with_value parcel (depart_answer self.old.ground_of
            (stage_of self.old.book) who doc.0))
            (written (depart_answer self.old.ground_of (stage_of self.old.book) who doc.0)
            (entry who doc.0 (HallAct.Depart to)) self.old.book) result self.new.book }
        ensures values { MatchResult result
            (λ _. Departs doc.0 to parcel self.old.opens self.new.opens)
            (λ _. self.new.opens ≡ self.old.opens) }
    {
        let ground = Ground {
            polls: self.polls,
            room: self.room,
        };
        let entries = self.entries.len() as u64;
        let at = match check_depart(
            ground,
            self.next,
            self.opens.as_slice(),
            entries,
            self.due,
            who,
            doc.0,
        ) {
            Ok(at) => at,
            Err(why) => return Err(Refused { why, value: parcel }),
        };
        send_off(self.opens.as_mut_slice(), at, to, parcel);
        self.entries.push_reserved(Entry {
            who,
            doc: doc.0,
            act: HallAct::Depart(to),
        });
        self.due += 1;
        Ok(())
    }

    /// The parcel in transit to the caller with the lowest id, whose document the caller owns from
    /// then on. None exactly where there is none; the state is then unchanged. It takes no memory.
    pub fn arrive(&mut self, who: u32) -> Option<(DocId, P)>
        ensures ground { self.new.ground_of ≡ self.old.ground_of }
        ensures answers { Answers self.old.ground_of self.old.book
            (arrive_answer (stage_of self.old.book) who)
            (arrived who (arrive_answer (stage_of self.old.book) who) self.old.book)
            (option_map (λ r. r.0.0) result) self.new.book }
        ensures values { MatchOption result (self.new.opens ≡ self.old.opens)
            (λ r. Arrives who r.0.0 r.1 self.old.opens self.new.opens) }
    {
        let entries = self.entries.len() as u64;
        let (at, doc) = match check_arrive(
            self.next,
            self.opens.as_slice(),
            entries,
            self.due,
            who,
        ) {
            Some(found) => found,
            None => return None,
        };
        let parcel = land(self.opens.as_mut_slice(), at, who);
        self.entries.push_reserved(Entry {
            who,
            doc,
            act: HallAct::Arrive,
        });
        self.due -= 1;
        Some((DocId(doc), parcel))
    }
}
