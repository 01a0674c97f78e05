// A dial over sockets.
ghost use Rattle.std.specs.Prelude.{◌≡◌, IfOk};

use std::alloc::{AllocError, Global};
use std::io::{self, ErrorKind};
use std::net::{Net, TcpStream, ToSocketAddrs};
use std::rt::Clock;
use std::time::Duration;
use tcp_wire::TimedWire;
use wopi_dial::{Dial, DialFault};

/// How many seconds the host may take to answer a dial, at each of its addresses.
const DIAL_SECONDS: u64 = 5;

/// How many seconds one read or write over a wire waits at most.
const WAIT_SECONDS: u64 = 5;

/// How many seconds a wire has in all.
const WIRE_SECONDS: u64 = 20;

/// A dial of the host at one address, a name or a number with a port. A name is looked up at each
/// dial, and its addresses are tried in turn.
#[derive(Drop)]
pub struct TcpDial<'a, R> {
    rt: &'a R,
    host: String,
    away: u64,
    faults: u64,
}

impl<'a, R> TcpDial<'a, R> {
    ghost use Rattle.std.specs.Prelude.{◌≡◌, IfOk};

    /// A dial of the host at this address. Nothing is dialled.
    pub fn new(rt: &'a R, alloc: Global, host: &str) -> Result<TcpDial<'a, R>, AllocError>
        ensures { IfOk result (λ dial. (dial.away ≡ 0) × (dial.faults ≡ 0)) }
    {
        Ok(TcpDial {
            rt,
            host: String::from_str(alloc, host)?,
            away: 0,
            faults: 0,
        })
    }
}

impl<'a, R> TcpDial<'a, R>
where
    R: Net<Stream = TcpStream> + Clock,
{
    // A wire to the first of the host's addresses that answers.
    fn reach(&self) -> io::Result<TimedWire<'a, R>>
        ensures { IfOk result (λ wire. wire.faults ≡ 0) }
    {
        TimedWire::of(
            self.rt,
            self.connected()?,
            Duration::from_secs(WAIT_SECONDS),
            Duration::from_secs(WIRE_SECONDS),
        )
    }

    fn connected(&self) -> io::Result<TcpStream> {
        let mut last = io::Error::from(ErrorKind::NotFound);
        let wait = Duration::from_secs(DIAL_SECONDS);
        for address in self.host.as_str().to_socket_addrs(self.rt)? {
            match TcpStream::connect_timeout(self.rt, &address, wait) {
                Ok(stream) => return Ok(stream),
                Err(error) => last = error,
            }
        }
        Err(last)
    }
}

impl<'a, R> Dial for TcpDial<'a, R>
where
    R: Net<Stream = TcpStream> + Clock,
{
    type W = TimedWire<'a, R>;

    ghost use Rattle.std.specs.Prelude.{None};

    ghost told = { λ _. None };

    ghost away = { λ d. d.away };

    ghost faults = { λ d. d.faults };

    fn dial(&mut self, _alloc: Global) -> Result<TimedWire<'a, R>, DialFault> {
        if self.away == u64::MAX {
            return Err(DialFault::Memory);
        }
        match self.reach() {
            Ok(wire) => {
                self.away += 1;
                Ok(wire)
            }
            Err(error) if error.kind() == ErrorKind::OutOfMemory => Err(DialFault::Memory),
            Err(_) => {
                self.faults = self.faults.saturating_add(1);
                Err(DialFault::Failed)
            }
        }
    }

    fn hang(&mut self, wire: TimedWire<'a, R>) {
        self.away -= 1;
        if wire.faults() > 0 {
            self.faults = self.faults.saturating_add(1);
        }
    }
}
