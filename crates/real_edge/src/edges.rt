// The edge.
ghost use Rattle.std.specs.Prelude.{◌≡◌, IfOk};

use crate::clocks::{MachineClock, OpenGate};
use crate::stores::TcpStore;
use cool_base::Memory;
use edge::{Edge, EdgeFault};
use folder_keeper::FolderKeeper;
use net_edge::EdgeNet;
use std::alloc::Global;
use std::io::{self, ErrorKind};
use std::net::{self, TcpListener, TcpStream};
use std::rt::{Clock, Files};
use std::time::Duration;
use tcp_wire::TimedWire;
use wopi_host::KeeperFault;

/// How many seconds one read or write over a wire of the host waits at most.
const WAIT_SECONDS: u64 = 5;

/// How many seconds a wire of the host has in all.
const WIRE_SECONDS: u64 = 20;

/// How many streams in a row may be lost before an accept fails.
const MOST_LOST: u32 = 1_000;

/// The edge of this machine. The host and the nets listen on the loopback address alone.
#[derive(Drop)]
pub struct RealEdge<'a, R> {
    rt: &'a R,
    listener: Option<TcpListener>,
    nets: u64,
    wires: u64,
    stores: u64,
    keepers: u64,
    faults: u64,
}

impl<'a, R> RealEdge<'a, R> {
    /// An edge that gave nothing yet.
    pub fn new(rt: &'a R) -> RealEdge<'a, R> {
        RealEdge {
            rt,
            listener: None,
            nets: 0,
            wires: 0,
            stores: 0,
            keepers: 0,
            faults: 0,
        }
    }
}

// The next wire of the listener. A stream that is lost before it is a wire is left for the next
// one.
fn next_wire<'a, R: Clock>(rt: &'a R, listener: &TcpListener) -> io::Result<TimedWire<'a, R>>
    ensures { IfOk result (λ wire. wire.faults ≡ 0) }
{
    let mut lost = io::Error::from(io::ErrorKind::ConnectionAborted);
    for _ in 0..MOST_LOST {
        match accepted(rt, listener) {
            Ok(wire) => return Ok(wire),
            Err(error) => lost = error,
        }
    }
    Err(lost)
}

fn accepted<'a, R: Clock>(rt: &'a R, listener: &TcpListener) -> io::Result<TimedWire<'a, R>>
    ensures { IfOk result (λ wire. wire.faults ≡ 0) }
{
    let (stream, _) = listener.accept()?;
    TimedWire::of(
        rt,
        stream,
        Duration::from_secs(WAIT_SECONDS),
        Duration::from_secs(WIRE_SECONDS),
    )
}

// A net that listens on the port, or on none.
fn net_of<'a, R: net::Net + Clock>(
    rt: &'a R,
    alloc: Global,
    port: Option<u16>,
    sessions: u64,
) -> io::Result<EdgeNet<'a, R>>
    ensures { IfOk result (λ net. (net.take_faults ≡ 0) × (net.give_faults ≡ 0)) }
{
    match port {
        Some(port) => EdgeNet::listen(alloc, rt, rt, port, sessions),
        None => EdgeNet::quiet(alloc, rt, rt),
    }
}

impl<'a, R> RealEdge<'a, R>
where
    R: net::Net<Stream = TcpStream, Listener = TcpListener> + Clock,
{
    ghost use Rattle.std.specs.Prelude.{◌≡◌, IfOk};

    // Listens, where it doesn't yet, and accepts.
    fn listen_and_accept(&mut self, port: u16) -> io::Result<TimedWire<'a, R>>
        ensures sound { IfOk result (λ wire. wire.faults ≡ 0) }
        ensures wires { self.new.wires ≡ self.old.wires }
        ensures keepers { self.new.keepers ≡ self.old.keepers }
        ensures others { (self.new.nets ≡ self.old.nets) × (self.new.stores ≡ self.old.stores) }
        ensures faults { self.new.faults ≡ self.old.faults }
    {
        if self.listener.is_none() {
            self.listener = Some(TcpListener::bind(self.rt, ("127.0.0.1", port))?);
        }
        match &self.listener {
            Some(listener) => next_wire(self.rt, listener),
            None => Err(io::Error::from(io::ErrorKind::NotConnected)),
        }
    }
}

impl<'a, R> Edge for RealEdge<'a, R>
where
    R: net::Net<Stream = TcpStream, Listener = TcpListener> + Clock + Files + Sync,
{
    type Net = EdgeNet<'a, R>;

    type Store = TcpStore<'a, R>;

    type Gate = OpenGate;

    type Clock = MachineClock<'a, R>;

    type Wire = TimedWire<'a, R>;

    type Keeper = FolderKeeper<'a, R>;

    ghost use Rattle.std.specs.Prelude.{None};

    ghost told = { λ e. record {
      nets = None;
      wires = None;
      stores = None;
      opened = None;
      closed = None;
      moments = None;
      nets_out = e.nets;
      wires_out = e.wires;
      stores_out = e.stores;
      keepers_out = e.keepers;
    } };

    ghost faults = { λ e. e.faults };

    fn net(
        &mut self,
        alloc: Global,
        port: Option<u16>,
        sessions: u64,
    ) -> Result<EdgeNet<'a, R>, EdgeFault> {
        if self.nets == u64::MAX {
            return Err(EdgeFault::Memory);
        }
        match net_of(self.rt, alloc, port, sessions) {
            Ok(net) => {
                self.nets += 1;
                Ok(net)
            }
            Err(error) if error.kind() == ErrorKind::OutOfMemory => Err(EdgeFault::Memory),
            Err(_) => {
                self.faults = self.faults.saturating_add(1);
                Err(EdgeFault::Net)
            }
        }
    }

    fn store(&mut self, alloc: Global, host: &str) -> Result<TcpStore<'a, R>, EdgeFault> {
        if self.stores == u64::MAX {
            return Err(EdgeFault::Memory);
        }
        match TcpStore::new(self.rt, alloc, host) {
            Ok(store) => {
                self.stores += 1;
                Ok(store)
            }
            Err(Memory) => Err(EdgeFault::Memory),
        }
    }

    fn gate(&mut self) -> OpenGate {
        OpenGate
    }

    fn clock(&mut self) -> MachineClock<'a, R> {
        MachineClock::new(self.rt)
    }

    fn keeper(&mut self, alloc: Global, folder: &str) -> Result<FolderKeeper<'a, R>, EdgeFault> {
        if self.keepers == u64::MAX {
            return Err(EdgeFault::Memory);
        }
        match FolderKeeper::open(self.rt, alloc, folder) {
            Ok(keeper) => {
                self.keepers += 1;
                Ok(keeper)
            }
            Err(KeeperFault::Failed) => {
                self.faults = self.faults.saturating_add(1);
                Err(EdgeFault::Net)
            }
            Err(KeeperFault::Memory) => Err(EdgeFault::Memory),
        }
    }

    fn close_net(&mut self, net: EdgeNet<'a, R>) {
        self.nets -= 1;
        if net.take_faults() > 0 {
            self.faults = self.faults.saturating_add(1);
        }
    }

    fn close_wire(&mut self, _wire: TimedWire<'a, R>) {
        self.wires -= 1;
    }

    fn close_store(&mut self, _store: TcpStore<'a, R>) {
        self.stores -= 1;
    }

    fn close_keeper(&mut self, _keeper: FolderKeeper<'a, R>) {
        self.keepers -= 1;
    }

    fn accept(&mut self, _alloc: Global, port: u16) -> Result<TimedWire<'a, R>, EdgeFault> {
        if self.wires == u64::MAX {
            return Err(EdgeFault::Memory);
        }
        match self.listen_and_accept(port) {
            Ok(wire) => {
                self.wires += 1;
                Ok(wire)
            }
            Err(_) => {
                self.faults = self.faults.saturating_add(1);
                Err(EdgeFault::Net)
            }
        }
    }
}
