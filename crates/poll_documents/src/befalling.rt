//! An event befalls a document, and all that is owed for it is done: a text, a leave, a turn, an
//! answer that was posted.
ghost use Rattle.std.specs.Prelude.{◌≡◌, [], ℕ, List, Option, IsSome, OnOk, OnErr, false};
ghost use Rattle.std.specs.Option.{option_map_or};
ghost use Rattle.document_machine.specs.State.{is_live};
ghost use Rattle.load_address.specs.declared.served.Served.{Served};
ghost use Rattle.poll_instance.specs.Instance.{ways};
ghost use Rattle.poll_machine.specs.Words.{Said, Left, event_of};
ghost use Rattle.poll_documents.specs.Befalling.{Befalls, Befell, Turns};
ghost use Rattle.poll_documents.specs.Outside.{BrokersHeard, outside, with_net, answer_in};

use crate::owned::OwnedDocument;
use crate::parcels::{Mail, Parcel};
use crate::works::At;
use cool_base::{Memory, ViewId};
use document_machine::Turned;
use kit_trait::Kit;
use net_traits::Net;
use outside::Store;
use poll_hall::Port;
use std::alloc::Global;
use yard_traits::{Answer, Work, Yard};

impl<K: Kit, N: Net> OwnedDocument<K, N> {
    /// Between two calls nothing is owed to the document.
    pub(crate) fn owes_nothing(&self)
        ensures { self.now.todo ≡ [] }
    {
        let _links = &self.links;
    }

    /// A view says a text, and all that comes of it is done. How many links ended.
    pub(crate) fn say<
        H: Store,
        Y: Yard<Work<K::Scene>>,
        P: Port<Parcel<K, N::Link>, Mail<K::Scene, N::Link>>,
    >(
        &mut self,
        alloc: Global,
        net: &mut N,
        store: &mut H,
        yard: &mut Y,
        port: &mut P,
        at: At,
        view: ViewId,
        text: &[u8],
    ) -> Result<u64, Memory>
        ensures befalls { (served : Served) (clock : Option (List ℕ))
            → Befalls (ways K.rules K.cut served) N.carried at.doc.0 at.moment self.old
            (Said view.0 text.now)
            (outside (N.told net.old) (P.view port.old) (H.calls store.old) clock (Y.took yard.old))
            result self.new
            (outside (N.told net.new) (P.view port.new) (H.calls store.new) clock
            (Y.took yard.new)) }
        ensures takes { N.take_faults net.new ≡ N.take_faults net.old }
    {
        // Each view with a link is live; a document of which that isn't so goes no further.
        if !self.broker.is_live(view) {
            return Err(Memory);
        }
        let outs = self.hear(view, text)?;
        let ended = self.settle(alloc, net, store, yard, port, at, outs)?;
        self.owes_nothing();
        Ok(ended)
    }

    /// A view leaves, whose link left. It gives nothing out.
    pub(crate) fn part(&mut self, view: ViewId)
        requires { IsSome self.old.doc }
        ensures befalls { (served : Served) (id moment : ℕ) (s : BrokersHeard K.Scene N.Link)
            → Befell (ways K.rules K.cut served) N.carried id moment self.old
            (Left view.0) s 0 self.new s }
        ensures alive { IsSome self.new.doc }
    {
        self.owes_nothing();
        self.drop_view(view);
        self.owes_nothing();
    }

    /// The same. Each view with a link is live; a document of which that isn't so goes no further.
    pub(crate) fn leave(&mut self, view: ViewId) -> Result<(), Memory>
        ensures befalls { OnOk result ((served : Served) (id moment : ℕ)
            (s : BrokersHeard K.Scene N.Link) → Befell (ways K.rules K.cut served) N.carried id
            moment self.old (Left view.0) s 0 self.new s) }
        ensures missing { OnErr result
            (option_map_or (λ held. is_live held.document.views view.0) self.old.doc false
            ≡ false) }
    {
        if !self.broker.is_live(view) {
            return Err(Memory);
        }
        self.part(view);
        Ok(())
    }

    /// The document makes a turn, and all that comes of it is done: whether it did a work, and how
    /// many links ended.
    pub(crate) fn make_turn<
        H: Store,
        Y: Yard<Work<K::Scene>>,
        P: Port<Parcel<K, N::Link>, Mail<K::Scene, N::Link>>,
    >(
        &mut self,
        alloc: Global,
        net: &mut N,
        store: &mut H,
        yard: &mut Y,
        port: &mut P,
        at: At,
    ) -> Result<(bool, u64), Memory>
        ensures turns { (served : Served) (clock : Option (List ℕ))
            → Turns (ways K.rules K.cut served) N.carried at.doc.0 at.moment self.old
            (outside (N.told net.old) (P.view port.old) (H.calls store.old) clock (Y.took yard.old))
            result self.new
            (outside (N.told net.new) (P.view port.new) (H.calls store.new) clock
            (Y.took yard.new)) }
        ensures takes { N.take_faults net.new ≡ N.take_faults net.old }
    {
        match self.turn()? {
            Turned::Worked(outs) => {
                let ended = self.settle(alloc, net, store, yard, port, at, outs)?;
                self.owes_nothing();
                Ok((true, ended))
            }
            Turned::Idle => {
                self.owes_nothing();
                Ok((false, 0))
            }
        }
    }

    /// A posted answer to a work comes, and its frames are given. How many links ended.
    pub(crate) fn answered(
        &mut self,
        alloc: Global,
        net: &mut N,
        moment: u64,
        answer: &Answer<K::Scene>,
    ) -> Result<u64, Memory>
        ensures befalls { (served : Served) (id : ℕ) (s : BrokersHeard K.Scene N.Link)
            → Befalls (ways K.rules K.cut served) N.carried id moment self.old
            (event_of (answer_in (λ d. record { ticket = d.ticket.0; scene = d.scene }) answer.now))
            (with_net s (N.told net.old)) result self.new (with_net s (N.told net.new)) }
        ensures takes { N.take_faults net.new ≡ N.take_faults net.old }
    {
        self.owes_nothing();
        let outs = self.take(alloc, moment, answer)?;
        let ended = self.give_all(alloc, net, outs.frames.get())?;
        self.owes_nothing();
        Ok(ended)
    }
}
