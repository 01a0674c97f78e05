// The net.
ghost use Rattle.std.specs.Prelude.{◌≡◌, IfOk};

use crate::links::EdgeLink;
use crate::sockets::Sockets;
use cool_base::{LinkId, Memory};
use net_traits::{Given, Net, Taken};
use std::alloc::Global;
use std::rt::Clock;
use std::{io, net};

/// The browsers' sockets. A take that finds nothing waits, at first 1 and at most 10 milliseconds, where
/// the takes before it found nothing and no frame was given since.
#[derive(Drop)]
pub struct EdgeNet<'a, R> {
    sockets: Sockets<'a, R>,
    take_faults: u64,
    give_faults: u64,
}

impl<'a, R: Clock> EdgeNet<'a, R> {
    ghost use Rattle.std.specs.Prelude.{◌≡◌, IfOk};

    /// A net that listens on this port of the loopback address, where 0 lets the system choose one. At
    /// most `sessions` links open over it, any number where that is 0.
    pub fn listen<N: net::Net>(
        alloc: Global,
        rt: &'a R,
        sockets: &N,
        port: u16,
        sessions: u64,
    ) -> io::Result<EdgeNet<'a, R>>
        ensures { IfOk result (λ net. (net.take_faults ≡ 0) × (net.give_faults ≡ 0)) }
    {
        Ok(EdgeNet {
            sockets: Sockets::listen(alloc, rt, sockets, port, sessions)?,
            take_faults: 0,
            give_faults: 0,
        })
    }

    /// A net that doesn't listen: its links are those that it adopts.
    pub fn quiet<N: net::Net>(alloc: Global, rt: &'a R, sockets: &N) -> io::Result<EdgeNet<'a, R>>
        ensures { IfOk result (λ net. (net.take_faults ≡ 0) × (net.give_faults ≡ 0)) }
    {
        Ok(EdgeNet {
            sockets: Sockets::quiet(alloc, rt, sockets)?,
            take_faults: 0,
            give_faults: 0,
        })
    }

    /// The port that it listens on.
    pub fn port(&self) -> Option<u16> {
        self.sockets.port()
    }

    /// How many takes failed. The count stays at 2^64 - 1 once it is there.
    pub fn take_faults(&self) -> u64
        ensures { result ≡ self.now.take_faults }
    {
        self.take_faults
    }
}

impl<'a, R: Clock> Net for EdgeNet<'a, R> {
    type Link = EdgeLink;

    ghost use Rattle.std.specs.Prelude.{None, []};

    ghost told = { λ _. None };

    ghost carried = { λ _. [] };

    ghost take_faults = { λ n. n.take_faults };

    ghost give_faults = { λ n. n.give_faults };

    fn take(&mut self, _alloc: Global) -> Result<Taken, Memory> {
        let taken = self.sockets.take()?;
        if matches!(&taken, Taken::Failed) {
            self.take_faults = self.take_faults.saturating_add(1);
        }
        Ok(taken)
    }

    fn give(&mut self, _alloc: Global, link: LinkId, frame: &[u8]) -> Result<Given, Memory> {
        if self.sockets.give(link, frame)? {
            return Ok(Given::Sent);
        }
        self.give_faults = self.give_faults.saturating_add(1);
        Ok(Given::Failed)
    }

    fn release(&mut self, link: LinkId) -> Option<EdgeLink> {
        self.sockets.release(link)
    }

    fn adopt(&mut self, _alloc: Global, link: EdgeLink) -> Result<LinkId, Memory> {
        self.sockets.adopt(link)
    }
}
