//! `Broker`: puts that come back, and what of the document is stored.
ghost use Rattle.std.specs.Prelude.{◌≡◌, false, None, IfOk, OnErr};
ghost use Rattle.std.specs.Option.{option_and_then, option_copied, option_map_or};
ghost use Rattle.document_machine.specs.Done.{is_done, is_lost};
ghost use Rattle.document_machine.specs.Event.{PutAnswered};
ghost use Rattle.document_machine.specs.Goes.{Goes};
ghost use Rattle.broker_core.specs.Stored.{has_unstored, lock_token};

use crate::broker::Broker;
use cool_base::{Memory, Ticket, Token};
use document_machine::Outs;
use kit_trait::Kit;
use outside::{Receipt, StoreFault};

impl<K: Kit> Broker<K> {
    /// The store answered an errand. Where the ticket is that of the put under way, and a receipt is for its
    /// file and content, the put goes, a receipt's number is stored, and each save that the put was for is
    /// answered where its view is still there; else nothing changes. After `Memory` the broker is spent.
    pub fn put_done(
        &mut self,
        ticket: Ticket,
        answer: &Result<Receipt, StoreFault>,
    ) -> Result<Outs<K::Scene>, Memory>
        ensures step { IfOk result (λ outs. Goes K.rules K.cut self.old (PutAnswered ticket.0 answer.now) outs self.new) }
        ensures spent { OnErr result (self.new ≡ None) }
    {
        let Some(core) = self.core.take() else {
            return Err(Memory);
        };
        let core = Box::into_inner(core);
        let alloc = core.allocator();
        let (core, outs) = core.put_done(ticket, answer)?;
        self.core = Some(Box::new(alloc, core)?);
        Ok(outs)
    }

    /// Whether the document has no view, no save that is not answered and no put under way, so that it may
    /// be closed; false where the broker is spent.
    pub fn is_done(&self) -> bool
        ensures { result ≡ option_map_or (λ held. is_done held.document) self.now false }
    {
        match &self.core {
            Some(core) => core.is_done(),
            None => false,
        }
    }

    /// Whether the document is done and the content stored last lacks some of its inputs; false where the
    /// broker is spent.
    pub fn is_lost(&self) -> bool
        ensures { result ≡ option_map_or (λ held. is_lost held.document) self.now false }
    {
        match &self.core {
            Some(core) => core.is_lost(),
            None => false,
        }
    }

    /// Whether the content stored last lacks some of the accepted inputs; false where the broker is spent.
    pub fn has_unstored(&self) -> bool
        ensures { result ≡ option_map_or (λ held. has_unstored held.document) self.now false }
    {
        match &self.core {
            Some(core) => core.has_unstored(),
            None => false,
        }
    }

    /// The token of the view that said the last input; none where there is no input, and where the broker
    /// is spent.
    pub fn last_token(&self) -> Option<&Token>
        ensures { option_copied result ≡ option_and_then (λ held. held.document.saving.last_token) self.now }
    {
        match &self.core {
            Some(core) => core.last_token(),
            None => None,
        }
    }

    /// The token of the errand that the store answered by a receipt for the put under way; none for another
    /// answer, and where the broker is spent. It is read before `put_done` takes the answer.
    pub fn lock_token(&self, ticket: Ticket, answer: &Result<Receipt, StoreFault>) -> Option<&Token>
        ensures { option_copied result ≡ option_and_then (λ held. lock_token ticket.0 answer.now held.document.saving) self.now }
    {
        match &self.core {
            Some(core) => core.lock_token(ticket, answer),
            None => None,
        }
    }
}
