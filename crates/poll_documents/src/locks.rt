//! The lock of a document's file: it is refreshed, and released before the document is closed.
ghost use Rattle.std.specs.Prelude.{◌≡◌, ◌+◌, false, nat_le};
ghost use Rattle.std.specs.Option.{option_map_or};
ghost use Rattle.document_machine.specs.Done.{is_done, is_lost};
ghost use Rattle.poll_documents.specs.Locking.{RefreshesDue, ReleasesLock, lacks_memory};

use crate::owned::OwnedDocument;
use cool_base::Memory;
use kit_trait::Kit;
use net_traits::Net;
use outside::{Store, StoreFault};
use std::alloc::Global;

// Whether the store answered that it had no memory.
fn lacked_memory(answer: &Result<(), StoreFault>) -> bool
    ensures { result ≡ lacks_memory answer.now }
{
    matches!(answer, Err(StoreFault::Memory))
}

// Whether a lock of that moment is due at this one.
fn is_due(taken: u64, moment: u64) -> bool
    ensures { result ≡ nat_le (taken + 600) moment }
{
    moment.saturating_sub(taken) >= 600
}

impl<K: Kit, N: Net> OwnedDocument<K, N> {
    /// Refreshes the lock once where it was taken or refreshed 600 seconds ago or earlier, whatever
    /// the store answers, and whether it did so. `Memory` exactly where the store answers it.
    pub(crate) fn refresh<H: Store>(
        &mut self,
        alloc: Global,
        store: &mut H,
        moment: u64,
    ) -> Result<bool, Memory>
        ensures { RefreshesDue moment self.old (H.calls store.old) result self.new
            (H.calls store.new) }
    {
        let Some(lock) = &mut self.lock else {
            return Ok(false);
        };
        if !is_due(lock.moment, moment) {
            return Ok(false);
        }
        let answer = store.refresh(alloc, &self.file, &lock.token);
        lock.moment = moment;
        if lacked_memory(&answer) {
            return Err(Memory);
        }
        Ok(true)
    }

    /// Releases the lock where there is one, whatever the store answers, and whether there was one.
    /// `Memory` exactly where the store answers it.
    pub(crate) fn unlock<H: Store>(&mut self, alloc: Global, store: &mut H) -> Result<bool, Memory>
        ensures { ReleasesLock self.old (H.calls store.old) result self.new (H.calls store.new) }
    {
        let Some(lock) = self.lock.take() else {
            return Ok(false);
        };
        let answer = store.unlock(alloc, &self.file, &lock.token);
        if lacked_memory(&answer) {
            return Err(Memory);
        }
        Ok(true)
    }

    /// Whether the document may be closed.
    pub(crate) fn is_done(&self) -> bool
        ensures { result ≡ option_map_or (λ held. is_done held.document) self.now.doc false }
    {
        self.broker.is_done()
    }

    /// Whether it is done and the content stored last lacks some of its inputs.
    pub(crate) fn is_lost(&self) -> bool
        ensures { result ≡ option_map_or (λ held. is_lost held.document) self.now.doc false }
    {
        self.broker.is_lost()
    }
}
