//! A link joins a document, and a document departs to another poll or comes in from one: its links
//! are packed, and adopted again.
ghost use Rattle.std.specs.Prelude.{◌≡◌, ◌<◌, ◌+◌, ◌∷◌, ◌++◌, ℕ, List, Option, Some};
ghost use Rattle.std.specs.Prelude.{true, false, length, IsOk, IsSome, OnOk};
ghost use Rattle.load_address.specs.declared.served.Served.{Served};
ghost use Rattle.poll_instance.specs.Instance.{ways};
ghost use Rattle.poll_machine.specs.Agenda.{link_of};
ghost use Rattle.poll_machine.specs.House.{Live as LiveSlot, Rises, come_in, is_among, parcel_of};
ghost use Rattle.poll_machine.specs.Lobby.{adopts};
ghost use Rattle.poll_documents.specs.Doing.{Does, count_of, in_house};
ghost use Rattle.poll_documents.specs.Links.{AdoptsFirst, JoinsIn, PacksFirst, PacksView, packs};
ghost use Rattle.poll_documents.specs.Lodging.{BrokersDocs, BrokersHouse};
ghost use Rattle.poll_documents.specs.Outside.{BrokersHeard, outside, with_net};

use crate::owned::OwnedDocument;
use crate::parcels::{Mail, Parcel};
use crate::works::{At, sum_of, take_first};
use broker_core::JoinFault;
use cool_base::{LinkId, Memory, ViewId};
use document_machine::Rights;
use kit_trait::Kit;
use net_traits::Net;
use outside::Store;
use poll_hall::Port;
use poll_links::ViewLinks;
use std::alloc::Global;
use yard_traits::{Work, Yard};

impl<K: Kit, N: Net> OwnedDocument<K, N> {
    /// A view joins from a link of the lobby, in whatever house, and all that comes of it is done.
    /// How many links ended; None where the document has all the views that it may have.
    pub(crate) fn join_in<
        H: Store,
        Y: Yard<Work<K::Scene>>,
        P: Port<Parcel<K, N::Link>, Mail<K::Scene, N::Link>>,
    >(
        &mut self,
        alloc: Global,
        net: &mut N,
        store: &mut H,
        yard: &mut Y,
        port: &mut P,
        at: At,
        link: LinkId,
        rights: Rights,
    ) -> Result<Option<u64>, Memory>
        ensures joins { (served : Served) (clock : Option (List ℕ))
            (house : BrokersHouse K.Scene N.Link) (front back : BrokersDocs K.Scene N.Link)
            → house.moment ≡ at.moment → is_among link.0 house.lobby ≡ true
            → Rises (front ++ (at.doc.0, LiveSlot self.old) ∷ back)
            → JoinsIn (ways K.rules K.cut served) N.carried house at.doc.0 link.0 rights front
            self.old back
            (outside (N.told net.old) (P.view port.old) (H.calls store.old) clock (Y.took yard.old))
            result (LiveSlot self.new)
            (outside (N.told net.new) (P.view port.new) (H.calls store.new) clock
            (Y.took yard.new)) }
        ensures takes { N.take_faults net.new ≡ N.take_faults net.old }
    {
        self.owes_nothing();
        match self.join(link, rights) {
            Ok(outs) => {
                let ended = self.settle(alloc, net, store, yard, port, at, outs)?;
                self.owes_nothing();
                Ok(Some(ended))
            }
            Err(JoinFault::ViewsFull) => Ok(None),
            Err(JoinFault::Memory) => Err(Memory),
        }
    }

    // The link of a view is released and packed; a view whose link the net had no longer leaves.
    // How many links ended.
    fn pack_view(&mut self, net: &mut N, view: ViewId, link: LinkId) -> Result<u64, Memory>
        requires alive { IsSome self.old.doc }
        requires linked { link_of self.old.views view.0 ≡ Some link.0 }
        ensures packs { (served : Served) (id moment : ℕ) (s : BrokersHeard K.Scene N.Link)
            → PacksView (ways K.rules K.cut served) N.carried id moment self.old
            (record { view = view.0; link = link.0 }) (with_net s (N.told net.old)) result self.new
            (with_net s (N.told net.new)) }
        ensures takes { N.take_faults net.new ≡ N.take_faults net.old }
    {
        self.owes_nothing();
        match net.release(link) {
            Some(carried) => {
                self.packed.push((view.0, carried))?;
                self.links.remove(view);
                Ok(0)
            }
            None => {
                self.drop_view(view);
                self.owes_nothing();
                Ok(1)
            }
        }
    }

    // The link of the view that came first is released and packed; a view whose link the net had no
    // longer leaves. How many links ended. Each view stands once; a document of which that isn't so
    // goes no further.
    fn pack_first(&mut self, net: &mut N) -> Result<u64, Memory>
        ensures packs { (served : Served) (id moment : ℕ) (s : BrokersHeard K.Scene N.Link)
            → PacksFirst (ways K.rules K.cut served) N.carried id moment self.old
            (with_net s (N.told net.old)) result self.new (with_net s (N.told net.new)) }
        ensures left { OnOk result (length self.new.views + 1 ≡ length self.old.views) }
        ensures takes { N.take_faults net.new ≡ N.take_faults net.old }
    {
        let Some(first) = self.links.first() else {
            return Err(Memory);
        };
        if !self.broker.is_live(first.view) {
            return Err(Memory);
        }
        let left = self.links.count() - 1;
        let ended = self.pack_view(net, first.view, first.link)?;
        if self.links.count() != left {
            return Err(Memory);
        }
        Ok(ended)
    }

    /// The link of each view is released and packed, in order, in whatever house, and a view whose
    /// link the net had no longer leaves. How many links ended.
    pub(crate) fn pack(&mut self, net: &mut N) -> Result<u64, Memory>
        ensures packs { (served : Served) (id : ℕ) (s : BrokersHeard K.Scene N.Link)
            (house : BrokersHouse K.Scene N.Link) (front back : BrokersDocs K.Scene N.Link)
            → Rises (front ++ (id, LiveSlot self.old) ∷ back)
            → Does (ways K.rules K.cut served) N.carried (packs id self.old)
            (in_house house front (id, LiveSlot self.old) back house.ended)
            (with_net s (N.told net.old)) (IsOk result) false
            (in_house house front (id, LiveSlot self.new) back (house.ended + count_of result))
            (with_net s (N.told net.new)) }
        ensures takes { N.take_faults net.new ≡ N.take_faults net.old }
    {
        let mut ended = 0;
        for _ in 0..self.links.count() {
            let more = self.pack_first(net)?;
            ended = sum_of(ended, more)?;
        }
        Ok(ended)
    }

    // The link that was packed first is adopted.
    fn adopt_first(&mut self, alloc: Global, net: &mut N) -> Result<(), Memory>
        ensures adopts { (served : Served) (id moment : ℕ) (s : BrokersHeard K.Scene N.Link)
            → AdoptsFirst (ways K.rules K.cut served) N.carried id moment self.old
            (with_net s (N.told net.old)) result self.new (with_net s (N.told net.new)) }
        ensures left { OnOk result (length self.new.packed + 1 ≡ length self.old.packed) }
        ensures takes { N.take_faults net.new ≡ N.take_faults net.old }
    {
        self.owes_nothing();
        let Some((view, carried)) = take_first(&mut self.packed) else {
            return Err(Memory);
        };
        let link = net.adopt(alloc, carried)?;
        self.links.push(ViewId(view), link)?;
        Ok(())
    }

    /// Every packed link is adopted, in order, in whatever house.
    pub(crate) fn adopt(&mut self, alloc: Global, net: &mut N) -> Result<(), Memory>
        ensures adopts { (served : Served) (id : ℕ) (s : BrokersHeard K.Scene N.Link)
            (house : BrokersHouse K.Scene N.Link) (front back : BrokersDocs K.Scene N.Link)
            → Rises (front ++ (id, LiveSlot self.old) ∷ back)
            → Does (ways K.rules K.cut served) N.carried (adopts id self.old)
            (in_house house front (id, LiveSlot self.old) back house.ended)
            (with_net s (N.told net.old)) (IsOk result) false
            (in_house house front (id, LiveSlot self.new) back house.ended)
            (with_net s (N.told net.new)) }
        ensures takes { N.take_faults net.new ≡ N.take_faults net.old }
    {
        for _ in 0..self.packed.len() {
            self.adopt_first(alloc, net)?;
        }
        Ok(())
    }

    /// The document of a parcel, whose links are still to be adopted.
    pub fn unpacked(alloc: Global, parcel: Parcel<K, N::Link>) -> OwnedDocument<K, N>
        ensures { result ≡ come_in parcel }
    {
        OwnedDocument {
            file: parcel.file,
            broker: parcel.broker,
            links: ViewLinks::new(alloc),
            packed: parcel.links,
            lock: parcel.lock,
        }
    }

    /// The parcel of a document whose links are all packed.
    pub fn into_parcel(self) -> Parcel<K, N::Link>
        ensures { result ≡ parcel_of self }
    {
        Parcel {
            file: self.file,
            broker: self.broker,
            links: self.packed,
            lock: self.lock,
        }
    }
}
