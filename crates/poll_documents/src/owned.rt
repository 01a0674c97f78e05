//! `OwnedDocument`.
use broker_core::Broker;
use bytes::Bytes;
use cool_base::{FileId, LinkId, Token, ViewId};
use kit_trait::{Kit, LoadFault};
use net_traits::Net;
use poll_links::ViewLinks;
use std::alloc::Global;
use std::marker::Model;

/// The lock of a document's file: its token, and the moment in seconds at which it was taken or
/// refreshed.
#[derive(Drop)]
pub struct HeldLock {
    pub token: Token,
    pub moment: u64,
}

impl Model for HeldLock {
    ghost use Rattle.poll_machine.specs.Agenda.{Lock};

    ghost Value = { Lock };

    ghost view = { λ l. record { token = l.token; moment = l.moment } };
}

/// A document that a poll holds: its file, its broker, the links of its views, those of its views'
/// links that are on their way, and its lock.
#[derive(Drop)]
pub struct OwnedDocument<K: Kit, N: Net> {
    pub(crate) file: FileId,
    pub(crate) broker: Broker<K>,
    pub(crate) links: ViewLinks,
    pub(crate) packed: Vec<(u32, N::Link)>,
    pub(crate) lock: Option<HeldLock>,
}

impl<K: Kit, N: Net> Model for OwnedDocument<K, N> {
    ghost use Rattle.std.specs.Prelude.{Option, []};
    ghost use Rattle.document_machine.specs.Held.{Held};
    ghost use Rattle.kit_trait.specs.declared.jobs.PaintJob.{PaintJob};
    ghost use Rattle.poll_machine.specs.Agenda.{HeldDocument};
    ghost use Rattle.poll_instance.specs.Instance.{Painting};

    ghost Value = { HeldDocument (Option (Held K.Scene)) (PaintJob K.Scene)
        (Painting K.Scene) N.Link };

    ghost view = { λ h. record {
      file = h.file;
      doc = h.broker;
      views = h.links;
      packed = h.packed.items;
      lock = h.lock;
      todo = [];
    } };
}

impl<K: Kit, N: Net> OwnedDocument<K, N> {
    ghost use Rattle.std.specs.Prelude.{◌≡◌, Some, Err, IfOk, OnOk, true, false};
    ghost use Rattle.std.specs.Option.{option_map};
    ghost use Rattle.poll_machine.specs.Agenda.{link_of, view_of};
    ghost use Rattle.document_machine.specs.Held.{opening_held};
    ghost use Rattle.poll_machine.specs.House.{opened_over};

    /// The document of this file over these bytes, with its lock where it has one. BadFile exactly
    /// where the kit refuses the bytes.
    pub fn open(
        alloc: Global,
        file: &FileId,
        bytes: Bytes,
        lock: Option<HeldLock>,
    ) -> Result<OwnedDocument<K, N>, LoadFault>
        ensures accepted { OnOk result (K.rules.accepts bytes ≡ true) }
        ensures opened { IfOk result
            (λ owned. owned ≡ opened_over file.now (Some (opening_held file.now bytes)) lock) }
        ensures bad { result ≡ Err LoadFault.BadFile → K.rules.accepts bytes ≡ false }
        ensures refused { K.refuses bytes ≡ true → result ≡ Err LoadFault.BadFile }
    {
        let broker = Broker::start(alloc, file, bytes)?;
        Ok(OwnedDocument {
            file: file.copy(),
            broker,
            links: ViewLinks::new(alloc),
            packed: Vec::new(alloc),
            lock,
        })
    }

    /// The document's file.
    pub fn file(&self) -> FileId
        ensures { result ≡ self.now.file }
    {
        self.file.copy()
    }

    /// The link of a view; None where the view has none.
    pub fn link_of(&self, view: ViewId) -> Option<LinkId>
        ensures { option_map (λ link. link.0) result ≡ link_of self.now.views view.0 }
    {
        self.links.link_of(view)
    }

    /// The view of a link; None where the link is none of this document's.
    pub fn view_of(&self, link: LinkId) -> Option<ViewId>
        ensures { option_map (λ view. view.0) result ≡ view_of self.now.views link.0 }
    {
        self.links.view_of(link)
    }
}
