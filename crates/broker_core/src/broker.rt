//! `Broker`: the calls of a document, each a move of the document machine.
ghost use Rattle.std.specs.Prelude.{◌≡◌, ◌↔◌, ◌<◌, length, true, false, None, Some, Err, IsSome, IfOk, OnOk, OnErr};
ghost use Rattle.std.specs.Option.{ForSome, is_some, option_map_or};
ghost use Rattle.document_machine.specs.Event.{Joined, Left, Said};
ghost use Rattle.document_machine.specs.Goes.{Goes};
ghost use Rattle.document_machine.specs.Held.{opening_held};
ghost use Rattle.document_machine.specs.Kept.{IsHeld};
ghost use Rattle.document_machine.specs.Outputs.{nothing};
ghost use Rattle.document_machine.specs.State.{find_view, is_live};
ghost use Rattle.broker_core.specs.Held.{IsFull};

use crate::core_of::Core;
use crate::faults::JoinFault;
use bytes::Bytes;
use cool_base::{FileId, Memory, ViewId};
use document_machine::{MOST_VIEWS, Outs, Rights};
use kit_trait::{Kit, LoadFault};
use std::alloc::Global;
use std::marker::Model;

/// A document with the tiles that are kept of it. After `Memory` from one of its calls it is spent, and
/// seen as `None`: each further call that can answers `Memory`, and the others change nothing.
#[derive(Drop)]
pub struct Broker<K: Kit> {
    pub(crate) core: Option<Box<Core<K>>>,
}

impl<K: Kit> Model for Broker<K> {
    ghost use Rattle.std.specs.Prelude.{Option, option_map};
    ghost use Rattle.document_machine.specs.Held.{Held};

    ghost Value = { Option (Held K.Scene) };

    ghost view = { λ b. option_map (λ core. core.value) b.core };
}

impl<K: Kit> Broker<K> {
    /// The document of this file, without inputs and views, of which no tile is kept. BadFile exactly where
    /// the file is none of the kit's; where the kit refuses it before memory is taken, nothing else comes in
    /// its place.
    pub fn start(alloc: Global, file: &FileId, base: Bytes) -> Result<Broker<K>, LoadFault>
        ensures accepted { OnOk result (K.rules.accepts base ≡ true) }
        ensures ok { IfOk result (λ broker. broker ≡ Some (opening_held file.now base)) }
        ensures bad { result ≡ Err LoadFault.BadFile → K.rules.accepts base ≡ false }
        ensures refused { K.refuses base ≡ true → result ≡ Err LoadFault.BadFile }
    {
        let core = Core::open(alloc, file, base)?;
        Ok(Broker {
            core: Some(Box::new(alloc, core)?),
        })
    }

    /// What holds of every document that is not spent, and of the tiles that are kept of it.
    pub fn kept(&self)
        ensures { ForSome self.now (IsHeld K.rules K.cut) }
    {
        if let Some(core) = &self.core {
            core.kept();
        }
    }

    /// A view joins, with the next id, and gets its status. ViewsFull exactly where `MOST_VIEWS` views are
    /// there, which is judged before any memory is taken, and then nothing changed; after `Memory` the
    /// broker is spent.
    #[tactic(auto, using(crate::proofs::Comings::full_by, crate::proofs::Comings::not_full_by, crate::proofs::Comings::spent_not_full))]
    pub fn join(&mut self, rights: Rights) -> Result<(ViewId, Outs<K::Scene>), JoinFault>
        ensures step { IfOk result (λ r. Goes K.rules K.cut self.old (Joined rights) r.1 self.new) }
        ensures view { IfOk result (λ r. ForSome self.old (λ held. (r.0.0 ≡ held.document.next_view) × (length held.document.views < MOST_VIEWS))) }
        ensures full { (result ≡ Err JoinFault.ViewsFull) ↔ IsFull self.old }
        ensures unchanged { result ≡ Err JoinFault.ViewsFull → self.new ≡ self.old }
        ensures spent { result ≡ Err JoinFault.Memory → self.new ≡ None }
    {
        let Some(core) = self.core.take() else {
            return Err(JoinFault::Memory);
        };
        if core.views() >= MOST_VIEWS {
            self.core = Some(core);
            return Err(JoinFault::ViewsFull);
        }
        let core = Box::into_inner(core);
        let alloc = core.allocator();
        let (core, view, outs) = core.join(rights)?;
        self.core = Some(Box::new(alloc, core)?);
        Ok((view, outs))
    }

    /// The view leaves, with its window, its asked keys and its screen; its saves go on. Where it was the
    /// last view, a final save waits if one is needed. It takes no memory. Where the broker is spent nothing
    /// changes.
    pub fn leave(&mut self, view: ViewId)
        requires { ForSome self.old (λ held. IsSome (find_view held.document.views view.0)) }
        ensures step { ForSome self.old (λ held. Goes K.rules K.cut self.old (Left view.0) nothing self.new) }
        ensures spent { self.old ≡ None → self.new ≡ None }
    {
        if let Some(core) = &mut self.core {
            let core: &mut Core<K> = core;
            core.leave(view.0);
        }
    }

    /// The view says a text, of any bytes: its one effect, and the frame of a greeting or of a refusal.
    /// After `Memory` the broker is spent.
    pub fn message(&mut self, view: ViewId, text: &[u8]) -> Result<Outs<K::Scene>, Memory>
        requires { ForSome self.old (λ held. IsSome (find_view held.document.views view.0)) }
        ensures step { IfOk result (λ outs. Goes K.rules K.cut self.old (Said view.0 text.now) outs self.new) }
        ensures spent { OnErr result (self.new ≡ None) }
    {
        let Some(core) = self.core.take() else {
            return Err(Memory);
        };
        let core = Box::into_inner(core);
        let alloc = core.allocator();
        let (core, outs) = core.message(view.0, text)?;
        self.core = Some(Box::new(alloc, core)?);
        Ok(outs)
    }

    /// Whether the document has this view; false where the broker is spent.
    pub fn is_live(&self, view: ViewId) -> bool
        ensures { result ≡ option_map_or (λ held. is_live held.document.views view.0) self.now false }
    {
        match &self.core {
            Some(core) => core.is_live(view.0),
            None => false,
        }
    }

    /// How many inputs are applied; 0 where the broker is spent.
    pub fn applied(&self) -> u64
        ensures { result ≡ option_map_or (λ held. held.document.applied) self.now 0 }
    {
        match &self.core {
            Some(core) => core.applied(),
            None => 0,
        }
    }

    /// How many inputs are accepted; 0 where the broker is spent.
    pub fn accepted(&self) -> u64
        ensures { result ≡ option_map_or (λ held. length held.document.journal) self.now 0 }
    {
        match &self.core {
            Some(core) => core.accepted(),
            None => 0,
        }
    }
}
