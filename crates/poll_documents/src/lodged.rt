//! What a house holds under one id.
ghost use Rattle.std.specs.Prelude.{◌≡◌, ◌∷◌, ◌++◌, ◌+◌, ℕ, List, Option, Some, Ok, IsOk};
ghost use Rattle.std.specs.Prelude.{OnErr, true, false};
ghost use Rattle.std.specs.Option.{option_map, option_to_list};
ghost use Rattle.load_address.specs.declared.served.Served.{Served};
ghost use Rattle.poll_instance.specs.Instance.{ways};
ghost use Rattle.poll_machine.specs.House.{Answered as MailAnswered, Ends, Live as LiveSlot, Rises};
ghost use Rattle.poll_machine.specs.House.{is_among, lost_by, view_at};
ghost use Rattle.poll_machine.specs.Lobby.{adopts};
ghost use Rattle.poll_machine.specs.Turn.{did, reads, refreshes, turns};
ghost use Rattle.poll_machine.specs.Words.{Left, Said};
ghost use Rattle.poll_documents.specs.Doing.{Does, count_of, in_house, worked_in, ended_in};
ghost use Rattle.poll_documents.specs.Doing.{found_in};
ghost use Rattle.poll_documents.specs.Links.{JoinsIn, packs, refusal_of};
ghost use Rattle.poll_documents.specs.Locking.{Readies};
ghost use Rattle.poll_documents.specs.Lodging.{BrokersHouse, BrokersDocs, has_view, is_live_slot};
ghost use Rattle.poll_documents.specs.Lodging.{slot_in};
ghost use Rattle.poll_documents.specs.Outside.{BrokerHeld, BrokersHeard, answer_in, outside};
ghost use Rattle.poll_documents.specs.Outside.{with_net};
ghost use Rattle.poll_documents.specs.Outside.{with_store};

use crate::owned::OwnedDocument;
use crate::parcels::{Mail, Parcel};
use crate::works::At;
use cool_base::{DocId, FileId, LinkId, Memory, ViewId};
use document_machine::Rights;
use kit_trait::Kit;
use net_traits::Net;
use outside::Store;
use poll_hall::Port;
use poll_lobby::Refusal;
use std::alloc::Global;
use std::marker::Model;
use yard_traits::{Answer, Work, Yard};

/// A document, or a file whose load was refused, with the answer that it keeps.
#[derive(Drop)]
pub enum Kept<O, R> {
    Live(O),
    Refused(FileId, R),
}

/// What is held under an id.
#[derive(Drop)]
pub struct Lodged<K: Kit, N: Net> {
    pub id: DocId,
    pub kept: Kept<OwnedDocument<K, N>, Refusal>,
}

impl<K: Kit, N: Net> Model for Lodged<K, N> {
    ghost use Rattle.std.specs.Prelude.{Option, ℕ};
    ghost use Rattle.document_machine.specs.Held.{Held};
    ghost use Rattle.kit_trait.specs.declared.jobs.PaintJob.{PaintJob};
    ghost use Rattle.poll_machine.specs.House.{Slot};
    ghost use Rattle.poll_instance.specs.Instance.{Painting};
    ghost use Rattle.poll_documents.specs.Lodging.{slot_in};

    ghost Value = { ℕ × Slot (Option (Held K.Scene)) (PaintJob K.Scene) (Painting K.Scene) N.Link };

    ghost view = { λ l. (l.id.0, slot_in l.kept) };
}

impl<K: Kit, N: Net> Kept<OwnedDocument<K, N>, Refusal> {
    // The document makes a turn; one that is held as refused makes none.
    fn turn<
        H: Store,
        Y: Yard<Work<K::Scene>>,
        P: Port<Parcel<K, N::Link>, Mail<K::Scene, N::Link>>,
    >(
        &mut self,
        alloc: Global,
        net: &mut N,
        store: &mut H,
        yard: &mut Y,
        port: &mut P,
        at: At,
    ) -> Result<(bool, u64), Memory>
        ensures turns { (served : Served) (clock : Option (List ℕ))
            (house : BrokersHouse K.Scene N.Link) (front back : BrokersDocs K.Scene N.Link)
            → house.moment ≡ at.moment → Rises (front ++ (at.doc.0, slot_in self.old) ∷ back)
            → Does (ways K.rules K.cut served) N.carried (turns at.doc.0)
            (in_house house front (at.doc.0, slot_in self.old) back house.ended)
            (outside (N.told net.old) (P.view port.old) (H.calls store.old) clock (Y.took yard.old))
            (IsOk result) (worked_in result)
            (in_house house front (at.doc.0, slot_in self.new) back
            (house.ended + ended_in result))
            (outside (N.told net.new) (P.view port.new) (H.calls store.new) clock
            (Y.took yard.new)) }
        ensures takes { N.take_faults net.new ≡ N.take_faults net.old }
    {
        match self {
            Kept::Live(owned) => owned.make_turn(alloc, net, store, yard, port, at),
            Kept::Refused(_, _) => Ok((false, 0)),
        }
    }

    // The lock of the document is refreshed where it is due.
    fn refresh<H: Store>(&mut self, alloc: Global, store: &mut H, at: At) -> Result<bool, Memory>
        ensures refreshes { (served : Served) (s : BrokersHeard K.Scene N.Link)
            (house : BrokersHouse K.Scene N.Link) (front back : BrokersDocs K.Scene N.Link)
            → house.moment ≡ at.moment → Rises (front ++ (at.doc.0, slot_in self.old) ∷ back)
            → Does (ways K.rules K.cut served) N.carried (refreshes at.doc.0)
            (in_house house front (at.doc.0, slot_in self.old) back house.ended)
            (with_store s (H.calls store.old)) (IsOk result) (found_in result)
            (in_house house front (at.doc.0, slot_in self.new) back house.ended)
            (with_store s (H.calls store.new)) }
    {
        match self {
            Kept::Live(owned) => {
                owned.owes_nothing();
                owned.refresh(alloc, store, at.moment)
            }
            Kept::Refused(_, _) => Ok(false),
        }
    }

    // A view says a text, and all that comes of it is done.
    fn say<H: Store, Y: Yard<Work<K::Scene>>, P: Port<Parcel<K, N::Link>, Mail<K::Scene, N::Link>>>(
        &mut self,
        alloc: Global,
        net: &mut N,
        store: &mut H,
        yard: &mut Y,
        port: &mut P,
        at: At,
        view: ViewId,
        text: &[u8],
    ) -> Result<u64, Memory>
        requires { is_live_slot (slot_in self.old) ≡ true }
        ensures says { (served : Served) (clock : Option (List ℕ))
            (house : BrokersHouse K.Scene N.Link) (front back : BrokersDocs K.Scene N.Link)
            → house.moment ≡ at.moment → Rises (front ++ (at.doc.0, slot_in self.old) ∷ back)
            → Does (ways K.rules K.cut served) N.carried (did at.doc.0 (Said view.0 text.now))
            (in_house house front (at.doc.0, slot_in self.old) back house.ended)
            (outside (N.told net.old) (P.view port.old) (H.calls store.old) clock (Y.took yard.old))
            (IsOk result) false
            (in_house house front (at.doc.0, slot_in self.new) back
            (house.ended + count_of result))
            (outside (N.told net.new) (P.view port.new) (H.calls store.new) clock
            (Y.took yard.new)) }
        ensures takes { N.take_faults net.new ≡ N.take_faults net.old }
    {
        match self {
            Kept::Live(owned) => owned.say(alloc, net, store, yard, port, at, view, text),
            Kept::Refused(_, _) => Ok(0),
        }
    }

    // A view leaves. Memory is answered only where the broker has no such view.
    fn part(&mut self, view: ViewId) -> Result<(), Memory>
        requires { is_live_slot (slot_in self.old) ≡ true }
        ensures leaves { (served : Served) (id : ℕ) (s : BrokersHeard K.Scene N.Link)
            (house : BrokersHouse K.Scene N.Link) (front back : BrokersDocs K.Scene N.Link)
            → Rises (front ++ (id, slot_in self.old) ∷ back)
            → Does (ways K.rules K.cut served) N.carried (did id (Left view.0))
            (in_house house front (id, slot_in self.old) back house.ended) s (IsOk result) false
            (in_house house front (id, slot_in self.new) back house.ended) s }
        ensures missing { OnErr result (has_view (slot_in self.old) view.0 ≡ false) }
    {
        match self {
            Kept::Live(owned) => owned.leave(view),
            Kept::Refused(_, _) => Ok(()),
        }
    }

    // The answer to one of its works comes; what is held as refused drops it.
    fn answered(
        &mut self,
        alloc: Global,
        net: &mut N,
        at: At,
        answer: &Answer<K::Scene>,
    ) -> Result<u64, Memory>
        ensures answers { (served : Served) (s : BrokersHeard K.Scene N.Link)
            (house : BrokersHouse K.Scene N.Link) (front back : BrokersDocs K.Scene N.Link)
            → house.moment ≡ at.moment → Rises (front ++ (at.doc.0, slot_in self.old) ∷ back)
            → Does (ways K.rules K.cut served) N.carried
            (reads (ways K.rules K.cut served) at.doc.0 (MailAnswered
            (answer_in (λ d. record { ticket = d.ticket.0; scene = d.scene }) answer.now)))
            (in_house house front (at.doc.0, slot_in self.old) back house.ended)
            (with_net s (N.told net.old)) (IsOk result) false
            (in_house house front (at.doc.0, slot_in self.new) back
            (house.ended + count_of result)) (with_net s (N.told net.new)) }
        ensures takes { N.take_faults net.new ≡ N.take_faults net.old }
    {
        match self {
            Kept::Live(owned) => owned.answered(alloc, net, at.moment, answer),
            Kept::Refused(_, _) => Ok(0),
        }
    }

    // A view joins from a link of the lobby, and all that comes of it is done. How many links
    // ended; None where the document has all the views that it may have.
    fn join<
        H: Store,
        Y: Yard<Work<K::Scene>>,
        P: Port<Parcel<K, N::Link>, Mail<K::Scene, N::Link>>,
    >(
        &mut self,
        alloc: Global,
        net: &mut N,
        store: &mut H,
        yard: &mut Y,
        port: &mut P,
        at: At,
        link: LinkId,
        rights: Rights,
    ) -> Result<Option<u64>, Memory>
        requires { is_live_slot (slot_in self.old) ≡ true }
        ensures joins { (served : Served) (clock : Option (List ℕ))
            (house : BrokersHouse K.Scene N.Link) (front back : BrokersDocs K.Scene N.Link)
            (held : BrokerHeld K.Scene N.Link)
            → house.moment ≡ at.moment → is_among link.0 house.lobby ≡ true
            → slot_in self.old ≡ LiveSlot held → Rises (front ++ (at.doc.0, LiveSlot held) ∷ back)
            → JoinsIn (ways K.rules K.cut served) N.carried house at.doc.0 link.0 rights front held
            back
            (outside (N.told net.old) (P.view port.old) (H.calls store.old) clock (Y.took yard.old))
            result (slot_in self.new)
            (outside (N.told net.new) (P.view port.new) (H.calls store.new) clock
            (Y.took yard.new)) }
        ensures takes { N.take_faults net.new ≡ N.take_faults net.old }
    {
        match self {
            Kept::Live(owned) => owned.join_in(alloc, net, store, yard, port, at, link, rights),
            Kept::Refused(_, _) => Ok(None),
        }
    }

    // The links of its views are released and packed; what is held as refused has none. How many
    // links ended.
    fn pack(&mut self, net: &mut N) -> Result<u64, Memory>
        ensures packs { (served : Served) (id : ℕ) (s : BrokersHeard K.Scene N.Link)
            (house : BrokersHouse K.Scene N.Link) (front back : BrokersDocs K.Scene N.Link)
            (held : BrokerHeld K.Scene N.Link)
            → slot_in self.old ≡ LiveSlot held → Rises (front ++ (id, LiveSlot held) ∷ back)
            → Does (ways K.rules K.cut served) N.carried (packs id held)
            (in_house house front (id, LiveSlot held) back house.ended)
            (with_net s (N.told net.old)) (IsOk result) false
            (in_house house front (id, slot_in self.new) back (house.ended + count_of result))
            (with_net s (N.told net.new)) }
        ensures refused { is_live_slot (slot_in self.old) ≡ false
            → (result ≡ Ok 0) × (self.new ≡ self.old) × (net.new ≡ net.old) }
        ensures takes { N.take_faults net.new ≡ N.take_faults net.old }
    {
        match self {
            Kept::Live(owned) => owned.pack(net),
            Kept::Refused(_, _) => Ok(0),
        }
    }

    // The packed links are adopted, in order; what is held as refused has none.
    fn adopt(&mut self, alloc: Global, net: &mut N) -> Result<(), Memory>
        ensures adopts { (served : Served) (id : ℕ) (s : BrokersHeard K.Scene N.Link)
            (house : BrokersHouse K.Scene N.Link) (front back : BrokersDocs K.Scene N.Link)
            (held : BrokerHeld K.Scene N.Link)
            → slot_in self.old ≡ LiveSlot held → Rises (front ++ (id, LiveSlot held) ∷ back)
            → Does (ways K.rules K.cut served) N.carried (adopts id held)
            (in_house house front (id, LiveSlot held) back house.ended)
            (with_net s (N.told net.old)) (IsOk result) false
            (in_house house front (id, slot_in self.new) back house.ended)
            (with_net s (N.told net.new)) }
        ensures refused { is_live_slot (slot_in self.old) ≡ false
            → (result ≡ Ok tt) × (self.new ≡ self.old) × (net.new ≡ net.old) }
        ensures takes { N.take_faults net.new ≡ N.take_faults net.old }
    {
        match self {
            Kept::Live(owned) => owned.adopt(alloc, net),
            Kept::Refused(_, _) => Ok(()),
        }
    }

    // The answer that a refused load keeps; None of a document.
    fn refusal(&self) -> Option<Refusal>
        ensures { result ≡ refusal_of (slot_in self.now) }
    {
        match self {
            Kept::Live(_) => None,
            Kept::Refused(_, refusal) => Some(*refusal),
        }
    }

    // It is made ready to be closed.
    fn make_ready<H: Store>(&mut self, alloc: Global, store: &mut H) -> Result<Option<bool>, Memory>
        ensures readies { (served : Served) (id : ℕ) → Readies (ways K.rules K.cut served)
            (id, slot_in self.old) (H.calls store.old) result (id, slot_in self.new)
            (H.calls store.new) }
    {
        match self {
            Kept::Live(owned) => {
                owned.owes_nothing();
                if !owned.is_done() {
                    return Ok(None);
                }
                Ok(Some(owned.unlock(alloc, store)?))
            }
            Kept::Refused(_, _) => Ok(Some(false)),
        }
    }

    // The file of a document that is done and of whose inputs the content stored last lacks some.
    fn lost_file(&self) -> Option<FileId>
        ensures { (served : Served)
            → option_to_list result
            ≡ lost_by (ways K.rules K.cut served) (Some (slot_in self.now)) (Ends (Ok tt)) }
    {
        match self {
            Kept::Live(owned) => {
                if owned.is_lost() {
                    Some(owned.file())
                } else {
                    None
                }
            }
            Kept::Refused(_, _) => None,
        }
    }

    // The view of a link.
    fn view_of(&self, link: LinkId) -> Option<ViewId>
        ensures { (id : ℕ)
            → option_map (λ view. view.0) result ≡ view_at (id, slot_in self.now) link.0 }
    {
        match self {
            Kept::Live(owned) => owned.view_of(link),
            Kept::Refused(_, _) => None,
        }
    }
}

impl<K: Kit, N: Net> Lodged<K, N> {
    /// The document makes a turn, in whatever house; one that is held as refused makes none.
    /// Whether it did a work, and how many links ended.
    pub fn turn<
        H: Store,
        Y: Yard<Work<K::Scene>>,
        P: Port<Parcel<K, N::Link>, Mail<K::Scene, N::Link>>,
    >(
        &mut self,
        alloc: Global,
        net: &mut N,
        store: &mut H,
        yard: &mut Y,
        port: &mut P,
        moment: u64,
    ) -> Result<(bool, u64), Memory>
        ensures turns { (served : Served) (clock : Option (List ℕ))
            (house : BrokersHouse K.Scene N.Link) (front back : BrokersDocs K.Scene N.Link)
            → house.moment ≡ moment → Rises (front ++ self.old ∷ back)
            → Does (ways K.rules K.cut served) N.carried (turns self.old.0)
            (in_house house front self.old back house.ended)
            (outside (N.told net.old) (P.view port.old) (H.calls store.old) clock (Y.took yard.old))
            (IsOk result) (worked_in result)
            (in_house house front self.new back (house.ended + ended_in result))
            (outside (N.told net.new) (P.view port.new) (H.calls store.new) clock
            (Y.took yard.new)) }
        ensures same { self.new.0 ≡ self.old.0 }
        ensures takes { N.take_faults net.new ≡ N.take_faults net.old }
    {
        let at = At {
            doc: self.id,
            moment,
        };
        self.kept.turn(alloc, net, store, yard, port, at)
    }

    /// The lock of the document is refreshed, in whatever house, where it was taken or refreshed
    /// 600 seconds ago or earlier. Whether it was.
    pub fn refresh<H: Store>(
        &mut self,
        alloc: Global,
        store: &mut H,
        moment: u64,
    ) -> Result<bool, Memory>
        ensures refreshes { (served : Served) (s : BrokersHeard K.Scene N.Link)
            (house : BrokersHouse K.Scene N.Link) (front back : BrokersDocs K.Scene N.Link)
            → house.moment ≡ moment → Rises (front ++ self.old ∷ back)
            → Does (ways K.rules K.cut served) N.carried (refreshes self.old.0)
            (in_house house front self.old back house.ended) (with_store s (H.calls store.old))
            (IsOk result) (found_in result) (in_house house front self.new back house.ended)
            (with_store s (H.calls store.new)) }
        ensures same { self.new.0 ≡ self.old.0 }
    {
        let at = At {
            doc: self.id,
            moment,
        };
        self.kept.refresh(alloc, store, at)
    }

    /// The id under which it is held.
    pub fn id(&self) -> DocId
        ensures { result.0 ≡ self.now.0 }
    {
        self.id
    }

    /// The answer to one of its works comes, in whatever house, and its frames are given; what is
    /// held as refused drops it. How many links ended.
    pub fn answered(
        &mut self,
        alloc: Global,
        net: &mut N,
        moment: u64,
        answer: &Answer<K::Scene>,
    ) -> Result<u64, Memory>
        ensures answers { (served : Served) (s : BrokersHeard K.Scene N.Link)
            (house : BrokersHouse K.Scene N.Link) (front back : BrokersDocs K.Scene N.Link)
            → house.moment ≡ moment → Rises (front ++ self.old ∷ back)
            → Does (ways K.rules K.cut served) N.carried
            (reads (ways K.rules K.cut served) self.old.0 (MailAnswered
            (answer_in (λ d. record { ticket = d.ticket.0; scene = d.scene }) answer.now)))
            (in_house house front self.old back house.ended) (with_net s (N.told net.old))
            (IsOk result) false (in_house house front self.new back (house.ended + count_of result))
            (with_net s (N.told net.new)) }
        ensures same { self.new.0 ≡ self.old.0 }
        ensures takes { N.take_faults net.new ≡ N.take_faults net.old }
    {
        let at = At {
            doc: self.id,
            moment,
        };
        self.kept.answered(alloc, net, at, answer)
    }

    /// What is held is made ready to be closed: a document that is done, whose lock is released
    /// where it has one, and what is held as refused. Whether a lock was released; None where the
    /// document isn't done.
    pub fn make_ready<H: Store>(
        &mut self,
        alloc: Global,
        store: &mut H,
    ) -> Result<Option<bool>, Memory>
        ensures readies { (served : Served) → Readies (ways K.rules K.cut served) self.old
            (H.calls store.old) result self.new (H.calls store.new) }
        ensures same { self.new.0 ≡ self.old.0 }
    {
        self.kept.make_ready(alloc, store)
    }

    /// The file of a document that is done and of whose inputs the content stored last lacks some.
    pub fn lost_file(&self) -> Option<FileId>
        ensures { (served : Served)
            → option_to_list result
            ≡ lost_by (ways K.rules K.cut served) (Some self.now.1) (Ends (Ok tt)) }
    {
        self.kept.lost_file()
    }

    /// The view of a link; None where the link is none of this document's views.
    pub fn view_of(&self, link: LinkId) -> Option<ViewId>
        ensures { option_map (λ view. view.0) result ≡ view_at self.now link.0 }
    {
        self.kept.view_of(link)
    }

    /// A view says a text, in whatever house, and all that comes of it is done. How many links
    /// ended.
    pub fn say<
        H: Store,
        Y: Yard<Work<K::Scene>>,
        P: Port<Parcel<K, N::Link>, Mail<K::Scene, N::Link>>,
    >(
        &mut self,
        alloc: Global,
        net: &mut N,
        store: &mut H,
        yard: &mut Y,
        port: &mut P,
        moment: u64,
        view: ViewId,
        text: &[u8],
    ) -> Result<u64, Memory>
        requires { is_live_slot self.old.1 ≡ true }
        ensures says { (served : Served) (clock : Option (List ℕ))
            (house : BrokersHouse K.Scene N.Link) (front back : BrokersDocs K.Scene N.Link)
            → house.moment ≡ moment → Rises (front ++ self.old ∷ back)
            → Does (ways K.rules K.cut served) N.carried (did self.old.0 (Said view.0 text.now))
            (in_house house front self.old back house.ended)
            (outside (N.told net.old) (P.view port.old) (H.calls store.old) clock (Y.took yard.old))
            (IsOk result) false
            (in_house house front self.new back (house.ended + count_of result))
            (outside (N.told net.new) (P.view port.new) (H.calls store.new) clock
            (Y.took yard.new)) }
        ensures same { self.new.0 ≡ self.old.0 }
        ensures takes { N.take_faults net.new ≡ N.take_faults net.old }
    {
        let at = At {
            doc: self.id,
            moment,
        };
        self.kept.say(alloc, net, store, yard, port, at, view, text)
    }

    /// A view leaves, in whatever house. Memory is answered only where the document's broker has no
    /// such view.
    pub fn part(&mut self, view: ViewId) -> Result<(), Memory>
        requires { is_live_slot self.old.1 ≡ true }
        ensures leaves { (served : Served) (s : BrokersHeard K.Scene N.Link)
            (house : BrokersHouse K.Scene N.Link) (front back : BrokersDocs K.Scene N.Link)
            → Rises (front ++ self.old ∷ back)
            → Does (ways K.rules K.cut served) N.carried (did self.old.0 (Left view.0))
            (in_house house front self.old back house.ended) s (IsOk result) false
            (in_house house front self.new back house.ended) s }
        ensures missing { OnErr result (has_view self.old.1 view.0 ≡ false) }
        ensures same { self.new.0 ≡ self.old.0 }
    {
        self.kept.part(view)
    }

    /// A view joins from a link of the lobby, in whatever house, and all that comes of it is done.
    /// How many links ended; None where the document has all the views that it may have.
    pub fn join<
        H: Store,
        Y: Yard<Work<K::Scene>>,
        P: Port<Parcel<K, N::Link>, Mail<K::Scene, N::Link>>,
    >(
        &mut self,
        alloc: Global,
        net: &mut N,
        store: &mut H,
        yard: &mut Y,
        port: &mut P,
        moment: u64,
        link: LinkId,
        rights: Rights,
    ) -> Result<Option<u64>, Memory>
        requires { is_live_slot self.old.1 ≡ true }
        ensures joins { (served : Served) (clock : Option (List ℕ))
            (house : BrokersHouse K.Scene N.Link) (front back : BrokersDocs K.Scene N.Link)
            (held : BrokerHeld K.Scene N.Link)
            → house.moment ≡ moment → is_among link.0 house.lobby ≡ true
            → self.old.1 ≡ LiveSlot held → Rises (front ++ self.old ∷ back)
            → JoinsIn (ways K.rules K.cut served) N.carried house self.old.0 link.0 rights front
            held back
            (outside (N.told net.old) (P.view port.old) (H.calls store.old) clock (Y.took yard.old))
            result self.new.1
            (outside (N.told net.new) (P.view port.new) (H.calls store.new) clock
            (Y.took yard.new)) }
        ensures same { self.new.0 ≡ self.old.0 }
        ensures takes { N.take_faults net.new ≡ N.take_faults net.old }
    {
        let at = At {
            doc: self.id,
            moment,
        };
        self.kept
            .join(alloc, net, store, yard, port, at, link, rights)
    }

    /// The links of its views are released and packed, in whatever house; what is held as refused
    /// has none. How many links ended.
    pub fn pack(&mut self, net: &mut N) -> Result<u64, Memory>
        ensures packs { (served : Served) (s : BrokersHeard K.Scene N.Link)
            (house : BrokersHouse K.Scene N.Link) (front back : BrokersDocs K.Scene N.Link)
            (held : BrokerHeld K.Scene N.Link)
            → self.old.1 ≡ LiveSlot held → Rises (front ++ self.old ∷ back)
            → Does (ways K.rules K.cut served) N.carried (packs self.old.0 held)
            (in_house house front self.old back house.ended) (with_net s (N.told net.old))
            (IsOk result) false
            (in_house house front self.new back (house.ended + count_of result))
            (with_net s (N.told net.new)) }
        ensures refused { is_live_slot self.old.1 ≡ false
            → (result ≡ Ok 0) × (self.new ≡ self.old) × (net.new ≡ net.old) }
        ensures same { self.new.0 ≡ self.old.0 }
        ensures takes { N.take_faults net.new ≡ N.take_faults net.old }
    {
        self.kept.pack(net)
    }

    /// Its packed links are adopted, in order, in whatever house; what is held as refused has none.
    pub fn adopt(&mut self, alloc: Global, net: &mut N) -> Result<(), Memory>
        ensures adopts { (served : Served) (s : BrokersHeard K.Scene N.Link)
            (house : BrokersHouse K.Scene N.Link) (front back : BrokersDocs K.Scene N.Link)
            (held : BrokerHeld K.Scene N.Link)
            → self.old.1 ≡ LiveSlot held → Rises (front ++ self.old ∷ back)
            → Does (ways K.rules K.cut served) N.carried (adopts self.old.0 held)
            (in_house house front self.old back house.ended) (with_net s (N.told net.old))
            (IsOk result) false (in_house house front self.new back house.ended)
            (with_net s (N.told net.new)) }
        ensures refused { is_live_slot self.old.1 ≡ false
            → (result ≡ Ok tt) × (self.new ≡ self.old) × (net.new ≡ net.old) }
        ensures same { self.new.0 ≡ self.old.0 }
        ensures takes { N.take_faults net.new ≡ N.take_faults net.old }
    {
        self.kept.adopt(alloc, net)
    }

    /// The answer that a refused load keeps; None of a document.
    pub fn refusal(&self) -> Option<Refusal>
        ensures { result ≡ refusal_of self.now.1 }
    {
        self.kept.refusal()
    }
}
