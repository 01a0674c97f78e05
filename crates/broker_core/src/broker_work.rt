//! `Broker`: turns, painted jobs, and what is left to do.
ghost use Rattle.std.specs.Prelude.{◌≡◌, ◌↔◌, [], map, true, false, None, IsTrue, IsSome, IsSomeAnd, IfOk, OnErr};
ghost use Rattle.std.specs.Option.{ForSome, option_map_or};
ghost use Rattle.document_machine.specs.Event.{Painted, Turned as TurnMade};
ghost use Rattle.document_machine.specs.Goes.{Did, Goes};
ghost use Rattle.document_machine.specs.Outputs.{outs_of};
ghost use Rattle.document_machine.specs.Quiet.{IsQuiet, is_quiet};
ghost use Rattle.document_machine.specs.Rank.{Lowers};
ghost use Rattle.document_machine.specs.State.{find_view};

use crate::broker::Broker;
use cool_base::{Memory, ViewId, Wids};
use document_machine::{Outs, Turned};
use kit_trait::{Done, Kit};

impl<K: Kit> Broker<K> {
    /// One turn: the ready saves are served, or else the next input is applied, or else the first pair, in
    /// order of views and then of keys, that is due, whose view has room and whose key can be served: a
    /// present tile of it that is kept is sent, or a job is cut for it and the keys to its right that join
    /// it. Idle exactly where there is nothing to do; a turn that is Worked lowers the rank of the document.
    /// After `Memory` the broker is spent.
    #[tactic(auto, using(crate::proofs::Steps::turn_goes, crate::proofs::Steps::turn_did, crate::proofs::Steps::turn_lowers))]
    pub fn turn(&mut self) -> Result<Turned<K::Scene>, Memory>
        ensures step { IfOk result (λ turned. Goes K.rules K.cut self.old TurnMade (outs_of turned) self.new) }
        ensures does { IfOk result (λ turned. Did K.rules K.cut self.old turned self.new) }
        ensures lower { IfOk result (λ turned. Lowers K.rules self.old turned self.new) }
        ensures spent { OnErr result (self.new ≡ None) }
    {
        let Some(core) = self.core.take() else {
            return Err(Memory);
        };
        let core = Box::into_inner(core);
        let alloc = core.allocator();
        // What it keeps is what the rank falls by.
        core.kept();
        let (core, turned) = core.turn()?;
        self.core = Some(Box::new(alloc, core)?);
        Ok(turned)
    }

    /// A painted job comes back. Where its ticket is out and its scene is the one kept for it, the job goes,
    /// and of each of its keys, in order, each view, in order of ids, gets the tile if it is due, has room
    /// and is no step back; the tiles that are present are kept. Else nothing changes. Jobs come back in any
    /// order or never. After `Memory` the broker is spent.
    #[tactic(auto, using(crate::proofs::Steps::moves_go))]
    pub fn painted(&mut self, done: &Done<K::Scene>) -> Result<Outs<K::Scene>, Memory>
        ensures step { IfOk result (λ outs. Goes K.rules K.cut self.old (Painted done.now.ticket.0 done.now.scene) outs self.new) }
        ensures spent { OnErr result (self.new ≡ None) }
    {
        let Some(core) = self.core.take() else {
            return Err(Memory);
        };
        let core = Box::into_inner(core);
        let alloc = core.allocator();
        let (core, outs) = core.painted(done)?;
        self.core = Some(Box::new(alloc, core)?);
        Ok(outs)
    }

    /// Whether a turn would be Idle, no job is out, no put is under way and every window is empty; false
    /// where the broker is spent.
    pub fn is_quiet(&self) -> bool
        ensures quiet { IsTrue result ↔ IsSomeAnd self.now (λ held. IsQuiet K.rules held.document) }
        ensures test { result ≡ option_map_or (λ held. is_quiet K.rules held.document) self.now false }
    {
        match &self.core {
            Some(core) => core.is_quiet(),
            None => false,
        }
    }

    /// The numbers of the tiles that the view has not acknowledged, in the order sent; none where the
    /// broker is spent.
    pub fn unprocessed(&self, view: ViewId) -> Wids
        requires { ForSome self.now (λ held. IsSome (find_view held.document.views view.0)) }
        ensures wids { ForSome self.now (λ held. ForSome (find_view held.document.views view.0) (λ v. map (λ wid. wid.0) result.items ≡ map (λ tile. tile.wid) v.window)) }
        ensures spent { self.now ≡ None → result.items ≡ [] }
    {
        match &self.core {
            Some(core) => core.unprocessed(view.0),
            None => Wids::new(),
        }
    }
}
