//! What polls send to each other: parcels and mails.
use crate::owned::HeldLock;
use broker_core::Broker;
use cool_base::{FileId, LinkId};
use document_machine::Rights;
use hall_machine::{Label, Labelled};
use kit_trait::{Done, Kit, Scene};
use std::marker::Model;
use yard_traits::Answered;

/// A document on its way from one poll to another: its file, its broker, its views with their
/// links, and its lock.
#[derive(Drop)]
pub struct Parcel<K: Kit, L: Drop> {
    pub file: FileId,
    pub broker: Broker<K>,
    pub links: Vec<(u32, L)>,
    pub lock: Option<HeldLock>,
}

impl<K: Kit, L: Drop> Model for Parcel<K, L> {
    ghost use Rattle.std.specs.Prelude.{Option};
    ghost use Rattle.document_machine.specs.Held.{Held};
    ghost use Rattle.poll_machine.specs.House.{Parcel as Sent};

    ghost Value = { Sent (Option (Held K.Scene)) L };

    ghost view = { λ p. record {
      file = p.file;
      doc = p.broker;
      links = p.links.items;
      lock = p.lock;
    } };
}

/// What a mail says: a link joins, a work was answered, or the document is to move.
#[derive(Drop)]
pub enum Letter<D, L> {
    Join { id: LinkId, link: L, rights: Rights },
    Answered(Answered<D>),
    Move { to: u32 },
}

/// Mail for a document.
#[derive(Drop)]
pub struct Mail<S: Scene, L: Drop> {
    pub letter: Letter<Done<S>, L>,
}

impl<S: Scene, L: Drop> Model for Mail<S, L> {
    ghost use Rattle.poll_machine.specs.House.{Mail as Sent};
    ghost use Rattle.poll_instance.specs.Instance.{Painting};
    ghost use Rattle.poll_documents.specs.Outside.{letter_in};

    ghost Value = { Sent (Painting S) L };

    ghost view = { λ m. letter_in (λ d. record { ticket = d.ticket.0; scene = d.scene }) m.letter };
}

impl<S: Scene, L: Drop> Labelled for Mail<S, L> {
    ghost use Rattle.poll_documents.specs.Outside.{mail_label};

    ghost tag = { mail_label };

    fn label(&self) -> Label {
        match &self.letter {
            Letter::Join { id, .. } => Label {
                kind: 0,
                number: id.0,
            },
            Letter::Answered(Answered::Painted(done)) => Label {
                kind: 1,
                number: done.ticket.0,
            },
            Letter::Answered(Answered::PutDone { ticket, .. }) => Label {
                kind: 2,
                number: ticket.0,
            },
            Letter::Move { to } => Label {
                kind: 3,
                number: u64::from(*to),
            },
        }
    }
}
