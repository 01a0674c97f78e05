//! The edge of the daemon: what gives it nets, stores, gates, clocks, wires and keepers, and takes
//! them back.
//!
//! A caller of `Edge` gives back all that it was given; the edge's counts of what is out say so in the
//! caller's contract. Where the edge tells, it tells what each of them told when it was closed.
#![tactic(auto)]

ghost use Rattle.std.specs.Prelude.{◌≡◌, ◌<◌, ◌+◌, ℕ, List, [], Option, Some, None, IfOk, MatchResult, true, option_map};
ghost use Rattle.std.specs.Option.{IfSome};
ghost use Rattle.outside.specs.Causes.{HasCause, Rose};
ghost use Rattle.net_traits.specs.Nets.{IsQuiet};
ghost use Rattle.edge.specs.Edges.{EdgeTold, NetEnd, WireEnd, Stock, stock_of, net_given, wire_given, store_given, keeper_given, net_closed, wire_closed, store_closed, keeper_closed, IsNew, room_for, edge_failed};

use net_traits::{Clock, Gate, Net};
use outside::{Store, Wire};
use std::alloc::Global;
use thiserror::Error;
use wopi_host::Keeper;

/// Why the edge gave nothing.
#[derive(Clone, Copy, Debug, PartialEq, Eq, Error)]
pub enum EdgeFault {
    /// A call on the system failed, and the edge's count of faults rose.
    #[error("a call on the system failed")]
    Net,
    #[error("out of memory")]
    Memory,
}

/// Where the daemon meets the machine. What it gives is given back by the closes, which take no memory.
pub trait Edge {
    /// The links of browsers.
    type Net: Net + Send + Drop;
    /// The documents behind a WOPI host.
    type Store: Store + Send + Drop;
    /// What a worker passes before each work.
    type Gate: Gate + Send + Drop;
    /// The clock.
    type Clock: Clock + Send + Drop;
    /// One request to the WOPI host, and its response.
    type Wire: Wire + Drop;
    /// The files of the WOPI host.
    type Keeper: Keeper + Drop;

    /// What the edge tells.
    ghost told: { Self → EdgeTold };

    /// How many faults there were. The count stays at 2^64 - 1 once it is there.
    ghost faults: { Self → ℕ };

    /// A net, which listens where it is given a port. Links open over it: at most as many as there are
    /// sessions, any number where that is 0, and none without a port.
    fn net(
        &mut self,
        alloc: Global,
        port: Option<u16>,
        sessions: u64,
    ) -> Result<Self::Net, EdgeFault>
        ensures told { MatchResult result (λ _. told self.new ≡ net_given (told self.old)) (λ _. told self.new ≡ told self.old) }
        ensures quiet { IfOk result (λ net. IfSome (Self.Net.told net) (IsQuiet (room_for port sessions))) }
        ensures sound { IfOk result (λ net. (Self.Net.take_faults net ≡ 0) × (Self.Net.give_faults net ≡ 0)) }
        ensures cause { HasCause (faults self.old) (faults self.new) (edge_failed result ≡ true) };

    /// A store over the WOPI host at this address.
    fn store(&mut self, alloc: Global, host: &str) -> Result<Self::Store, EdgeFault>
        ensures told { MatchResult result (λ _. told self.new ≡ store_given (told self.old)) (λ _. told self.new ≡ told self.old) }
        ensures fresh { IfOk result (λ store. IfSome (Self.Store.calls store) (λ calls. calls ≡ [])) }
        ensures cause { HasCause (faults self.old) (faults self.new) (edge_failed result ≡ true) };

    /// A gate.
    fn gate(&mut self) -> Self::Gate
        ensures { self.new ≡ self.old };

    /// A clock.
    fn clock(&mut self) -> Self::Clock
        ensures moments { Self.Clock.moments result ≡ (told self.old).moments }
        ensures stays { self.new ≡ self.old };

    /// A keeper of the files in this folder.
    fn keeper(&mut self, alloc: Global, folder: &str) -> Result<Self::Keeper, EdgeFault>
        ensures told { MatchResult result
            (λ keeper. told self.new ≡ keeper_given (stock_of Self.Keeper.holds Self.Keeper.faults keeper) (told self.old))
            (λ _. told self.new ≡ told self.old) }
        ensures cause { HasCause (faults self.old) (faults self.new) (edge_failed result ≡ true) };

    /// Closes a net. The edge's count of faults rises where a take of the net failed.
    fn close_net(&mut self, net: Self::Net)
        requires { 0 < (told self.old).nets_out }
        ensures told { told self.new ≡ net_closed (record { told = Self.Net.told net; faults = Self.Net.take_faults net }) (told self.old) }
        ensures cause { HasCause (faults self.old) (faults self.new) (0 < Self.Net.take_faults net) };

    /// Closes a wire.
    fn close_wire(&mut self, wire: Self::Wire)
        requires { 0 < (told self.old).wires_out }
        ensures told { told self.new ≡ wire_closed (record { talk = Self.Wire.talk wire; faults = Self.Wire.faults wire }) (told self.old) }
        ensures faults { faults self.new ≡ faults self.old };

    /// Closes a store.
    fn close_store(&mut self, store: Self::Store)
        requires { 0 < (told self.old).stores_out }
        ensures told { told self.new ≡ store_closed (Self.Store.calls store) (told self.old) }
        ensures faults { faults self.new ≡ faults self.old };

    /// Closes a keeper.
    fn close_keeper(&mut self, keeper: Self::Keeper)
        requires { 0 < (told self.old).keepers_out }
        ensures told { told self.new ≡ keeper_closed (stock_of Self.Keeper.holds Self.Keeper.faults keeper) (told self.old) }
        ensures faults { faults self.new ≡ faults self.old };

    /// The next wire of the WOPI host, which listens on this port.
    fn accept(&mut self, alloc: Global, port: u16) -> Result<Self::Wire, EdgeFault>
        ensures told { MatchResult result (λ _. told self.new ≡ wire_given (told self.old)) (λ _. told self.new ≡ told self.old) }
        ensures fresh { IfOk result (λ wire. IsNew (Self.Wire.talk wire)) }
        ensures sound { IfOk result (λ wire. Self.Wire.faults wire ≡ 0) }
        ensures cause { HasCause (faults self.old) (faults self.new) (edge_failed result ≡ true) };
}
