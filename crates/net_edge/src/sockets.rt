// The poll of the system, and the links that it tells of.
use crate::links::{EdgeLink, LISTENER, Links};
use cool_base::{LinkId, Memory};
use mio::net::TcpListener;
use mio::{Events, Interest, Poll, Token};
use net_rules::{Openings, Pace};
use net_traits::Taken;
use std::alloc::Global;
use std::io;
use std::net::{IpAddr, Ipv4Addr, Net, SocketAddr};
use std::rt::Clock;
use std::time::{Duration, Instant};

/// The most events of the system that one take hears of.
const MOST_EVENTS: usize = 256;

/// The sockets of a net.
#[derive(Drop)]
pub(crate) struct Sockets<'a, R> {
    rt: &'a R,
    began: Instant,
    now: u64,
    poll: Poll,
    events: Events,
    links: Links,
    pace: Pace,
}

impl<'a, R: Clock> Sockets<'a, R> {
    pub(crate) fn listen<N: Net>(
        alloc: Global,
        rt: &'a R,
        sockets: &N,
        port: u16,
        sessions: u64,
    ) -> io::Result<Sockets<'a, R>> {
        let address = SocketAddr::new(IpAddr::V4(Ipv4Addr::new(127, 0, 0, 1)), port);
        let mut listener = TcpListener::bind(sockets, address)?;
        let poll = Poll::new(sockets)?;
        poll.registry()
            .register(&mut listener, Token(LISTENER), Interest::READABLE)?;
        let links = Links::new(alloc, Some(listener), Openings::of(sessions));
        Sockets::of(alloc, rt, poll, links)
    }

    pub(crate) fn quiet<N: Net>(
        alloc: Global,
        rt: &'a R,
        sockets: &N,
    ) -> io::Result<Sockets<'a, R>> {
        let poll = Poll::new(sockets)?;
        Sockets::of(alloc, rt, poll, Links::new(alloc, None, Openings::none()))
    }

    fn of(alloc: Global, rt: &'a R, poll: Poll, links: Links) -> io::Result<Sockets<'a, R>> {
        Ok(Sockets {
            rt,
            began: Instant::now(rt)?,
            now: 0,
            poll,
            events: Events::with_capacity(alloc, MOST_EVENTS)?,
            links,
            pace: Pace::new(),
        })
    }

    pub(crate) fn port(&self) -> Option<u16> {
        self.links.port()
    }

    /// The next event. `Failed` where the poll or an accept failed.
    pub(crate) fn take(&mut self) -> Result<Taken, Memory> {
        let taken = self.look()?;
        if matches!(&taken, Taken::Nothing) {
            self.pace.found_nothing();
        } else {
            self.pace.stirred();
        }
        Ok(taken)
    }

    fn look(&mut self) -> Result<Taken, Memory> {
        if let Some(told) = self.links.told() {
            return Ok(told);
        }
        let wait = if self.links.is_ready() {
            0
        } else {
            self.pace.wait()
        };
        let timeout = Some(Duration::from_millis(wait));
        if self.poll.poll(&mut self.events, timeout).is_err() {
            return Ok(Taken::Failed);
        }
        for event in self.events.iter() {
            self.links.stirred(event.token().0)?;
        }
        self.tick();
        if !self.links.admit(self.poll.registry(), self.now)? {
            return Ok(Taken::Failed);
        }
        self.links.end_late(self.now);
        match self.links.told() {
            Some(told) => Ok(told),
            None => self.links.hear(),
        }
    }

    // Reads the clock, in milliseconds since the net began. Where it can't be read, it stands still.
    fn tick(&mut self) {
        if let Ok(passed) = self.began.elapsed(self.rt) {
            let whole = passed.as_secs().saturating_mul(1_000);
            self.now = whole.saturating_add(passed.subsec_millis() as u64);
        }
    }

    /// Gives a frame. False where the link has ended.
    pub(crate) fn give(&mut self, link: LinkId, frame: &[u8]) -> Result<bool, Memory> {
        self.pace.stirred();
        self.links.give(link, frame)
    }

    pub(crate) fn release(&mut self, link: LinkId) -> Option<EdgeLink> {
        self.links.release(self.poll.registry(), link)
    }

    pub(crate) fn adopt(&mut self, link: EdgeLink) -> Result<LinkId, Memory> {
        self.pace.stirred();
        self.links.adopt(self.poll.registry(), link)
    }
}
