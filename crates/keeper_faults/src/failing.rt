// A keeper that fails.
use bytes::Bytes;
use cool_base::FileId;
use std::alloc::Global;
use wopi_host::{Keeper, KeeperFault, MemoryKeeper};

// A keeper in memory that fails at one of its calls, counted from 1.
#[derive(Drop)]
pub(crate) struct FailingKeeper {
    pub(crate) inner: MemoryKeeper,
    pub(crate) calls: u64,
    pub(crate) accepted: u64,
    pub(crate) fails_at: u64,
    pub(crate) faults: u64,
}

impl FailingKeeper {
    ghost use Rattle.std.specs.Prelude.{◌≡◌};

    // Whether this call fails.
    fn fails(&mut self) -> bool
        ensures faults { self.new.faults ≡ self.old.faults }
        ensures accepted { self.new.accepted ≡ self.old.accepted }
    {
        self.calls = self.calls.saturating_add(1);
        self.calls == self.fails_at
    }
}

impl Keeper for FailingKeeper {
    ghost use Rattle.std.specs.Prelude.{None};

    ghost holds = { λ k. record { files = None; accepted = k.accepted } };

    ghost faults = { λ k. k.faults };

    #[tactic(auto, unfolding(wopi_host::specs::Keepers::IsIn, wopi_host::specs::Keepers::SameFiles))]
    fn find(&mut self, alloc: Global, file: &FileId) -> Result<Option<Bytes>, KeeperFault> {
        if self.fails() {
            self.faults = self.faults.saturating_add(1);
            return Err(KeeperFault::Failed);
        }
        match self.inner.find(alloc, file) {
            Ok(content) => Ok(content),
            Err(_) => Err(KeeperFault::Memory),
        }
    }

    #[tactic(auto, unfolding(wopi_host::specs::Keepers::Puts, wopi_host::specs::Keepers::SameFiles))]
    fn keep(&mut self, alloc: Global, file: &FileId, content: &Bytes) -> Result<(), KeeperFault> {
        if self.fails() {
            self.faults = self.faults.saturating_add(1);
            return Err(KeeperFault::Failed);
        }
        match self.inner.keep(alloc, file, content) {
            Ok(()) => {
                self.accepted = self.accepted.saturating_add(1);
                Ok(())
            }
            Err(_) => Err(KeeperFault::Memory),
        }
    }
}
