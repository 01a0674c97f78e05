//! What comes to a held document: a view joins, a view says a text, the document makes a turn.
ghost use Rattle.std.specs.Prelude.{◌≡◌, ◌↔◌, ℕ, true, false, None, Err, IsSome, IfOk, OnOk, OnErr};
ghost use Rattle.std.specs.Option.{ForSome, option_map_or};
ghost use Rattle.document_machine.specs.Event.{Joined};
ghost use Rattle.document_machine.specs.Goes.{Goes};
ghost use Rattle.document_machine.specs.Outputs.{outs_of};
ghost use Rattle.document_machine.specs.State.{find_view};
ghost use Rattle.load_address.specs.declared.served.Served.{Served};
ghost use Rattle.poll_machine.specs.Agenda.{HeldStep, Joins, Did, todo_of};
ghost use Rattle.poll_machine.specs.Words.{Said, Turned as TurnMade};
ghost use Rattle.poll_instance.specs.Instance.{did_work, given_out, is_full, ways};
ghost use Rattle.poll_documents.specs.Settling.{owing};

use crate::owned::OwnedDocument;
use broker_core::{Broker, JoinFault};
use cool_base::{LinkId, Memory, ViewId};
use document_machine::{Outs, Rights, Turned};
use kit_trait::Kit;
use net_traits::Net;

// A view joins a broker: one more may, and it has the next id.
fn join_broker<K: Kit>(
    broker: &mut Broker<K>,
    rights: Rights,
) -> Result<(ViewId, Outs<K::Scene>), JoinFault>
    ensures step { IfOk result (λ r. Goes K.rules K.cut broker.old (Joined rights) r.1 broker.new) }
    ensures room { OnOk result (is_full broker.old ≡ false) }
    ensures next { IfOk result
        (λ r. r.0.0 ≡ option_map_or (λ held. held.document.next_view) broker.old 0) }
    ensures full { (result ≡ Err JoinFault.ViewsFull) ↔ (is_full broker.old ≡ true) }
    ensures unchanged { result ≡ Err JoinFault.ViewsFull → broker.new ≡ broker.old }
{
    match broker.join(rights) {
        Ok(joined) => Ok(joined),
        Err(fault) => Err(fault),
    }
}

impl<K: Kit, N: Net> OwnedDocument<K, N> {
    /// A view joins from a link. ViewsFull exactly where the document has all the views that it may
    /// have, and then nothing changed; what it gives out is owed.
    #[tactic(auto, using(crate::proofs::Leaving::goes_some))]
    pub(crate) fn join(&mut self, link: LinkId, rights: Rights) -> Result<Outs<K::Scene>, JoinFault>
        ensures step { IfOk result (λ outs. (served : Served) (moment : ℕ)
            → HeldStep (ways K.rules K.cut served) moment self.old
            (Joins link.0 rights (given_out outs)) (owing self.new (todo_of (given_out outs)))) }
        ensures alive { OnOk result (IsSome self.new.doc) }
        ensures full { (result ≡ Err JoinFault.ViewsFull) ↔ (is_full self.old.doc ≡ true) }
        ensures unchanged { result ≡ Err JoinFault.ViewsFull → self.new ≡ self.old }
    {
        let (view, outs) = join_broker(&mut self.broker, rights)?;
        self.links.push(view, link)?;
        Ok(outs)
    }

    /// A view says a text. What comes of it is owed; after `Memory` the document is spent.
    #[tactic(auto, using(crate::proofs::Leaving::goes_some))]
    pub(crate) fn hear(&mut self, view: ViewId, text: &[u8]) -> Result<Outs<K::Scene>, Memory>
        requires { ForSome self.old.doc
            (λ held. IsSome (find_view held.document.views view.0)) }
        ensures step { IfOk result (λ outs. (served : Served) (moment : ℕ)
            → HeldStep (ways K.rules K.cut served) moment self.old
            (Did (Said view.0 text.now) (given_out outs))
            (owing self.new (todo_of (given_out outs)))) }
        ensures alive { OnOk result (IsSome self.new.doc) }
        ensures spent { OnErr result (self.new.doc ≡ None) }
    {
        self.broker.message(view, text)
    }

    /// The document makes a turn. What comes of it is owed; after `Memory` the document is spent.
    #[tactic(auto, using(crate::proofs::Leaving::goes_some))]
    pub(crate) fn turn(&mut self) -> Result<Turned<K::Scene>, Memory>
        ensures step { IfOk result (λ turned. (served : Served) (moment : ℕ)
            → HeldStep (ways K.rules K.cut served) moment self.old
            (Did (TurnMade (did_work turned)) (given_out (outs_of turned)))
            (owing self.new (todo_of (given_out (outs_of turned))))) }
        ensures alive { OnOk result (IsSome self.new.doc) }
        ensures spent { OnErr result (self.new.doc ≡ None) }
    {
        self.broker.turn()
    }
}
