// In the place of nets and stores, which the edge never gives, a gate that is open and a clock that
// stands still.
use bytes::Bytes;
use cool_base::{FileId, LinkId, Memory, Token};
use net_traits::{Clock, Gate, Given, Net, Taken};
use outside::{Admission, Errand, Receipt, Store, StoreFault};
use std::alloc::Global;

/// No net.
#[derive(Drop)]
pub struct NoNet;

/// No link.
#[derive(Drop)]
pub struct NoLink;

/// No store.
#[derive(Drop)]
pub struct NoStore;

impl Net for NoNet {
    type Link = NoLink;

    ghost use Rattle.std.specs.Prelude.{None, []};

    ghost told = { λ _. None };

    ghost carried = { λ _. [] };

    ghost take_faults = { λ _. 0 };

    ghost give_faults = { λ _. 0 };

    fn take(&mut self, _alloc: Global) -> Result<Taken, Memory> {
        Ok(Taken::Nothing)
    }

    fn give(&mut self, _alloc: Global, _link: LinkId, _frame: &[u8]) -> Result<Given, Memory> {
        Ok(Given::Sent)
    }

    fn release(&mut self, _link: LinkId) -> Option<NoLink> {
        None
    }

    fn adopt(&mut self, _alloc: Global, _link: NoLink) -> Result<LinkId, Memory> {
        Err(Memory)
    }
}

impl Store for NoStore {
    ghost use Rattle.std.specs.Prelude.{None};

    ghost calls = { λ _. None };

    ghost faults = { λ _. 0 };

    fn admit(
        &mut self,
        _alloc: Global,
        _file: &FileId,
        _token: &Token,
    ) -> Result<Admission, StoreFault> {
        Err(StoreFault::Missing)
    }

    fn fetch(
        &mut self,
        _alloc: Global,
        _file: &FileId,
        _token: &Token,
        _write: bool,
    ) -> Result<Bytes, StoreFault> {
        Err(StoreFault::Missing)
    }

    fn put(&mut self, _alloc: Global, _errand: &Errand) -> Result<Receipt, StoreFault> {
        Err(StoreFault::Missing)
    }

    fn refresh(
        &mut self,
        _alloc: Global,
        _file: &FileId,
        _token: &Token,
    ) -> Result<(), StoreFault> {
        Err(StoreFault::Missing)
    }

    fn unlock(&mut self, _alloc: Global, _file: &FileId, _token: &Token) -> Result<(), StoreFault> {
        Err(StoreFault::Missing)
    }
}

/// A gate that does nothing.
#[derive(Drop)]
pub struct OpenGate;

impl Gate for OpenGate {
    fn pass(&mut self, _work: u64) {}
}

/// A clock that gives one moment for ever.
#[derive(Drop)]
pub struct StillClock {
    pub(crate) moment: u64,
}

impl Clock for StillClock {
    ghost use Rattle.std.specs.Prelude.{Some, [], ◌∷◌};

    ghost moments = { λ c. Some (c.moment ∷ []) };

    #[tactic(auto, unfolding(net_traits::specs::Clocks::Ticks))]
    fn now(&mut self) -> u64 {
        self.moment
    }
}
