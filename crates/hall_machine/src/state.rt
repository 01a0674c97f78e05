//! `HallState`.
ghost use Rattle.std.specs.Prelude.{◌≡◌, ℕ, ◌≤◌, ◌<◌, [], IfOk, MatchResult, length};
ghost use Rattle.cool_base.specs.declared.ids.DocId.{DocId};
ghost use Rattle.hall_machine.specs.Machine.{enter_answer, post_answer};
ghost use Rattle.hall_machine.specs.Entries.{stage_of, IsLegal, entry, written, entered};
ghost use Rattle.hall_machine.specs.States.{AnswersOrLacks, refused, with_value, EntersOne, Posts};

mod handover;
mod mails;
mod questions;

use crate::checks::{check_enter, check_post};
use crate::edits::{open_one, put_mail};
use crate::words::{Entered, Entry, Ground, HallAct, HallFault, Labelled, OpenDocument, Refused};
use cool_base::{DocId, FileId, Memory};
use std::alloc::Global;
use std::marker::Model;
use turn_lock::Booked;

/// The plain state of a hall, with its book.
#[derive(Drop)]
pub struct HallState<P: Drop, M: Labelled> {
    polls: u32,
    room: u32,
    next: u32,
    due: u64,
    opens: Vec<OpenDocument<P, M>>,
    entries: Vec<Entry>,
}

impl<P: Drop, M: Labelled> Model for HallState<P, M> {
    ghost use Rattle.std.specs.Vec.{vec_capacity};
    ghost use Rattle.hall_machine.specs.States.{HallView, IsKept};

    ghost Value = { HallView P M };

    ghost view = { λ s. record {
      ground_of = record { polls = s.polls; room = s.room };
      opens =
          s.opens.items;
      book = s.entries.items;
    } };

    ghost invariant = { λ s. IsKept M.tag
        (record { polls = s.polls; room = s.room }) s.next s.opens.items s.due s.entries.items
        (vec_capacity s.entries) };
}

impl<P: Drop, M: Labelled> Booked for HallState<P, M> {
    type Entry = Entry;

    type Ground = Ground;

    ghost footing = { λ s. s.ground_of };

    ghost book = { λ s. s.book };

    fn count(&self) -> u64 {
        self.entries.len() as u64
    }
}

impl<P: Drop, M: Labelled> HallState<P, M> {
    /// A hall in which nothing was ever opened. It takes the room of the whole book, in entries.
    pub fn new(alloc: Global, polls: u32, room: u32) -> Result<HallState<P, M>, Memory>
        requires polls { (1 ≤ polls) × (polls ≤ 64) }
        requires room { (16384 ≤ room) × (room ≤ 4194304) }
        ensures { IfOk result
            (λ h. h ≡ record {
              ground_of = record { polls = polls; room = room };
              opens = [];
              book =
                  [];
            }) }
    {
        let entries = Vec::with_capacity(alloc, room as usize)?;
        Ok(HallState {
            polls,
            room,
            next: 0,
            due: 0,
            opens: Vec::new(alloc),
            entries,
        })
    }

    /// Opens the file for the poll: `There` exactly where it is open; else `HallFull` exactly where
    /// 64 documents are open; else
    /// `BookFull` exactly where the book is full; else `Fresh` with the next id, or `Memory`. After a
    /// refusal the state is unchanged.
    pub fn enter(&mut self, who: u32, file: &FileId) -> Result<Entered, HallFault>
        ensures ground { self.new.ground_of ≡ self.old.ground_of }
        ensures answers { AnswersOrLacks self.old.ground_of self.old.book
            (enter_answer self.old.ground_of (stage_of self.old.book) file.now)
            (entered who file.now
            (enter_answer self.old.ground_of (stage_of self.old.book) file.now) self.old.book)
            (Err HallFault.Memory) result self.new.book }
        ensures values { MatchResult result
            (λ e. EntersOne who file.now e self.old.opens self.new.opens)
            (λ _. self.new.opens ≡ self.old.opens) }
    {
        let ground = Ground {
            polls: self.polls,
            room: self.room,
        };
        let entries = self.entries.len() as u64;
        let there = match check_enter(
            ground,
            self.next,
            self.opens.as_slice(),
            entries,
            self.due,
            file,
        ) {
            Ok(there) => there,
            Err(why) => return Err(why),
        };
        if let Some(doc) = there {
            return Ok(Entered::There(doc));
        }
        let alloc = *self.opens.allocator();
        let doc = self.next;
        let filed = match open_one(&mut self.opens, alloc, doc, file, who) {
            Ok(filed) => filed,
            Err(_) => return Err(HallFault::Memory),
        };
        self.entries.push_reserved(Entry {
            who,
            doc,
            act: HallAct::Enter(filed),
        });
        self.next += 1;
        self.due += 1;
        Ok(Entered::Fresh(DocId(doc)))
    }

    /// Posts a mail to the document: `Gone` exactly where it isn't open; else `MailFull` exactly
    /// where 2,048 mails of it wait, 4,096 for an urgent one; else `BookFull` exactly where the
    /// book is full for it; and `Memory` only where none of these applies. After a refusal the mail
    /// comes back, and the state is unchanged. Who posts is only recorded.
    pub fn post(&mut self, who: u32, doc: DocId, mail: M, urgent: bool) -> Result<(), Refused<M>>
        ensures ground { self.new.ground_of ≡ self.old.ground_of }
        ensures answers { AnswersOrLacks self.old.ground_of self.old.book
            (with_value mail (post_answer self.old.ground_of
            (stage_of self.old.book) doc.0 urgent))
            (written (post_answer self.old.ground_of (stage_of self.old.book) doc.0 urgent)
            (entry who doc.0 (HallAct.Post (M.tag mail) urgent)) self.old.book)
            (Err (refused HallFault.Memory mail)) result self.new.book }
        ensures values { MatchResult result (λ _. Posts doc.0 mail self.old.opens self.new.opens)
            (λ _. self.new.opens ≡ self.old.opens) }
    {
        let ground = Ground {
            polls: self.polls,
            room: self.room,
        };
        let entries = self.entries.len() as u64;
        let at = match check_post(
            ground,
            self.next,
            self.opens.as_slice(),
            entries,
            self.due,
            doc.0,
            urgent,
        ) {
            Ok(at) => at,
            Err(why) => return Err(Refused { why, value: mail }),
        };
        let label = mail.label();
        if let Err(value) = put_mail(self.opens.as_mut_slice(), at, mail) {
            return Err(Refused {
                why: HallFault::Memory,
                value,
            });
        }
        self.entries.push_reserved(Entry {
            who,
            doc: doc.0,
            act: HallAct::Post(label, urgent),
        });
        self.due += 1;
        Ok(())
    }
}
