//! What a hall answers without a change.
ghost use Rattle.std.specs.Prelude.{◌≡◌, ◌/◌, length};
ghost use Rattle.std.specs.Option.{option_map};
ghost use Rattle.hall_machine.specs.Machine.{IsLeast, spare_answer, find_answer};
ghost use Rattle.hall_machine.specs.Entries.{stage_of, IsLegal};
ghost use Rattle.hall_machine.specs.Ids.{Rises};
ghost use Rattle.hall_machine.specs.States.{sights};

use super::HallState;
use crate::reads::{check_find, least_loaded};
use crate::words::Labelled;
use cool_base::{DocId, FileId};

impl<P: Drop, M: Labelled> HallState<P, M> {
    /// The poll with the fewest documents owned by it or on their way to it, the lowest of several.
    pub fn advise(&self) -> u32
        ensures legal { IsLegal self.now.ground_of self.now.book }
        ensures least { IsLeast self.now.ground_of.polls (stage_of self.now.book).desks result }
    {
        least_loaded(self.opens.as_slice(), self.polls)
    }

    /// Whether the hall has room to spare: false exactly where the book is full, or where the
    /// entries, those that are owed and two more are above half the room, rounded down.
    pub fn spare(&self) -> bool
        ensures legal { IsLegal self.now.ground_of self.now.book }
        ensures answer { result
            ≡ spare_answer self.now.ground_of (stage_of self.now.book)
            (self.now.ground_of.room / 2) }
    {
        let wanted = self.entries.len() as u64 + self.due + 2;
        wanted <= u64::from(self.room - 16384) && wanted <= u64::from(self.room / 2)
    }

    /// The open document of the file. None exactly where the file isn't open.
    pub fn find(&self, file: &FileId) -> Option<DocId>
        ensures legal { IsLegal self.now.ground_of self.now.book }
        ensures answer { result
            ≡ option_map (λ d. record { 0 = d }) (find_answer (stage_of self.now.book) file.now) }
    {
        check_find(
            self.next,
            self.opens.as_slice(),
            self.entries.len() as u64,
            file,
        )
    }

    /// The number of open documents; each of them has an owner or is in transit.
    pub fn open_count(&self) -> u32
        ensures legal { IsLegal self.now.ground_of self.now.book }
        ensures count { result ≡ length (stage_of self.now.book).desks }
    {
        self.opens.len() as u32
    }

    /// The number of polls, which never changes.
    pub fn polls(&self) -> u32
        ensures legal { IsLegal self.now.ground_of self.now.book }
        ensures polls { result ≡ self.now.ground_of.polls }
    {
        self.polls
    }

    /// The state is always what the machine reaches by the book, which is legal. The open documents
    /// stand in the order of their ids.
    pub fn is_reached(&self)
        ensures legal { IsLegal self.now.ground_of self.now.book }
        ensures desks { (stage_of self.now.book).desks ≡ sights M.tag self.now.opens }
        ensures entries { (stage_of self.now.book).entries ≡ length self.now.book }
        ensures ids { Rises (stage_of self.now.book) }
    {
        let _ = &self.polls;
    }
}
