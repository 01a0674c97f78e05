// An edge in memory.
use crate::kinds::{NoNet, NoStore, OpenGate, StillClock};
use bytes::Bytes;
use edge::{Edge, EdgeFault};
use http_server::Log;
use outside::MemoryWire;
use std::alloc::Global;
use wopi_host::MemoryKeeper;

/// How many bytes may be sent over a wire.
const ROOM: usize = 4_096;

/// An edge in memory: its wires give stated bytes, and it has one keeper, which it gives again once it
/// was given back. It gives no nets and no stores. An accept fails where no bytes are left.
#[derive(Drop)]
pub struct MemoryEdge {
    /// The bytes of the next wire, where there is to be one.
    pub(crate) incoming: Option<Bytes>,
    /// The keeper, while it is here.
    pub(crate) keeper: Option<MemoryKeeper>,
    /// The wire that was closed last.
    pub(crate) last: Option<MemoryWire>,
    moment: u64,
    nets: u64,
    stores: u64,
    wires: u64,
    keepers: u64,
    faults: u64,
    // What the edge tells. No code reads it, and it has no bytes.
    ends: Log<MemoryWire, ()>,
    opened: Log<MemoryKeeper, ()>,
    closed: Log<MemoryKeeper, ()>,
}

impl MemoryEdge {
    /// An edge with this keeper, whose clocks stand at this moment. No wire is to come.
    pub fn new(keeper: MemoryKeeper, moment: u64) -> MemoryEdge {
        MemoryEdge {
            incoming: None,
            keeper: Some(keeper),
            last: None,
            moment,
            nets: 0,
            stores: 0,
            wires: 0,
            keepers: 0,
            faults: 0,
            ends: Log::new(),
            opened: Log::new(),
            closed: Log::new(),
        }
    }
}

impl Edge for MemoryEdge {
    type Net = NoNet;

    type Store = NoStore;

    type Gate = OpenGate;

    type Clock = StillClock;

    type Wire = MemoryWire;

    type Keeper = MemoryKeeper;

    ghost use Rattle.std.specs.Prelude.{None, Some, [], ◌∷◌};
    ghost use Rattle.host_rounds.specs.Closed.{wires_told, keepers_told};

    ghost told = { λ e. record {
      nets = None;
      wires = Some (wires_told e.ends.items);
      stores = None;
      opened = Some (keepers_told e.opened.items);
      closed = Some (keepers_told e.closed.items);
      moments = Some (e.moment ∷ []);
      nets_out = e.nets;
      wires_out = e.wires;
      stores_out = e.stores;
      keepers_out = e.keepers;
    } };

    ghost faults = { λ e. e.faults };

    fn net(
        &mut self,
        _alloc: Global,
        _port: Option<u16>,
        _sessions: u64,
    ) -> Result<NoNet, EdgeFault> {
        self.faults = self.faults.saturating_add(1);
        Err(EdgeFault::Net)
    }

    fn store(&mut self, _alloc: Global, _host: &str) -> Result<NoStore, EdgeFault> {
        self.faults = self.faults.saturating_add(1);
        Err(EdgeFault::Net)
    }

    fn gate(&mut self) -> OpenGate {
        OpenGate
    }

    fn clock(&mut self) -> StillClock {
        StillClock {
            moment: self.moment,
        }
    }

    fn keeper(&mut self, _alloc: Global, _folder: &str) -> Result<MemoryKeeper, EdgeFault> {
        if self.keepers == u64::MAX {
            return Err(EdgeFault::Memory);
        }
        match self.keeper.take() {
            Some(keeper) => {
                self.keepers += 1;
                self.opened = self.opened.and(&keeper, &());
                Ok(keeper)
            }
            None => {
                self.faults = self.faults.saturating_add(1);
                Err(EdgeFault::Net)
            }
        }
    }

    fn close_net(&mut self, _net: NoNet) {
        self.nets -= 1;
    }

    fn close_wire(&mut self, wire: MemoryWire) {
        self.wires -= 1;
        self.ends = self.ends.and(&wire, &());
        self.last = Some(wire);
    }

    fn close_store(&mut self, _store: NoStore) {
        self.stores -= 1;
    }

    fn close_keeper(&mut self, keeper: MemoryKeeper) {
        self.keepers -= 1;
        self.closed = self.closed.and(&keeper, &());
        self.keeper = Some(keeper);
    }

    fn accept(&mut self, alloc: Global, _port: u16) -> Result<MemoryWire, EdgeFault> {
        if self.wires == u64::MAX {
            return Err(EdgeFault::Memory);
        }
        let Some(bytes) = self.incoming.take() else {
            self.faults = self.faults.saturating_add(1);
            return Err(EdgeFault::Net);
        };
        match MemoryWire::new(alloc, bytes.as_slice(), 7, ROOM) {
            Ok(wire) => {
                self.wires += 1;
                Ok(wire)
            }
            Err(_) => Err(EdgeFault::Memory),
        }
    }
}
