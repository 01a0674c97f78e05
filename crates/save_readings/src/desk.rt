//! `Desk`: a document's saves, with what a caller knows of them.
use bytes::Bytes;
use cool_base::{FileId, Memory, Ticket, Token, ViewId};
use outside::Receipt;
use save_core::{SaveAnswer, SaveFault, Saves, Started};
use std::alloc::Global;
use std::marker::Model;

/// A document's saves, whether a token is kept and room is there for a final save, and the file and
/// the content of the last put that began.
#[derive(Drop)]
pub(crate) struct Desk {
    saves: Saves,
    is_kept: bool,
    has_room: bool,
    file: Option<FileId>,
    content: Bytes,
}

impl Model for Desk {
    ghost use Rattle.std.specs.Prelude.{is_some, ◌≡◌};
    ghost use Rattle.save_core.specs.Saving.{Saving};

    ghost Value = { Saving };

    ghost view = { λ d. d.saves };

    ghost invariant = { λ d. (d.is_kept ≡ is_some d.saves.last_token) × (d.has_room ≡ d.saves.has_room) };
}

impl Desk {
    /// A document as it is loaded.
    pub(crate) fn new(alloc: Global) -> Result<Desk, Memory> {
        Ok(Desk {
            saves: Saves::new(alloc)?,
            is_kept: false,
            has_room: false,
            file: None,
            content: Bytes::new(),
        })
    }

    /// Its saves.
    pub(crate) fn saves(&self) -> &Saves {
        &self.saves
    }

    /// A save waits.
    pub(crate) fn wait(
        &mut self,
        view: Option<ViewId>,
        mark: u64,
        skip: bool,
        token: Token,
    ) -> Result<(), SaveFault> {
        self.saves.wait(view, mark, skip, token)
    }

    /// Serves the ready saves; None where none is ready.
    pub(crate) fn start(
        &mut self,
        applied: u64,
        file: &FileId,
        content: Bytes,
    ) -> Result<Option<Started>, Memory> {
        if !self.saves.is_ready(applied) {
            return Ok(None);
        }
        let same = content.clone()?;
        let started = self.saves.start(applied, file, content)?;
        if started.errand.is_some() {
            self.file = Some(file.copy());
            self.content = same;
        }
        Ok(Some(started))
    }

    /// The file of the last put that began.
    pub(crate) fn file(&self) -> Option<FileId> {
        match &self.file {
            Some(file) => Some(file.copy()),
            None => None,
        }
    }

    /// The content of the last put that began.
    pub(crate) fn content(&self) -> Result<Bytes, Memory> {
        Ok(self.content.clone()?)
    }

    /// The store's answer. Where the put has ended, room for a final save is made again.
    pub(crate) fn answer(
        &mut self,
        ticket: Ticket,
        receipt: Option<&Receipt>,
    ) -> Result<Vec<SaveAnswer>, Memory> {
        let had_put = self.saves.has_put();
        let given = self.saves.answer(ticket, receipt)?;
        if had_put && !self.saves.has_put() {
            self.has_room = self.is_kept;
        }
        Ok(given)
    }

    /// Keeps the token for final saves.
    pub(crate) fn keep(&mut self, token: Token) -> Result<(), Memory> {
        self.saves.keep_final(token)?;
        self.is_kept = true;
        self.has_room = true;
        Ok(())
    }

    /// Whether there was room for a final save, which then waits.
    #[tactic(auto, using(crate::proofs::Rooms::keeps_token, crate::proofs::Rooms::uses_room))]
    pub(crate) fn wait_final(&mut self, mark: u64) -> bool {
        if !self.is_kept || !self.has_room {
            return false;
        }
        self.saves.wait_final(mark);
        self.has_room = false;
        true
    }
}
