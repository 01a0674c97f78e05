// The links of a net, and the handshakes of those that aren't open yet.
use cool_base::{LinkId, Memory};
use mio::net::{TcpListener, TcpStream};
use mio::{Interest, Registry, Token};
use net_rules::{Handshakes, MOST_HANDSHAKES, Openings};
use net_traits::Taken;
use std::alloc::Global;
use std::collections::{BTreeMap, VecDeque};
use std::io::ErrorKind;
use web_link::{Heard, WebLink};
use web_upgrade::{Driven, Shake};

/// The token of the listener. Links are named from 1 on.
pub(crate) const LISTENER: usize = 0;

/// The most sockets that one take accepts.
const MOST_ACCEPTS: usize = 64;

/// A link on its way from one net to another.
#[derive(Drop)]
pub struct EdgeLink {
    link: WebLink<TcpStream>,
}

// An open link, and whether it stands in the line of those that may have something to say.
#[derive(Drop)]
struct Held {
    link: WebLink<TcpStream>,
    is_ready: bool,
}

// An event that waits to be taken.
#[derive(Clone, Copy)]
enum Told {
    Opened(u64),
    Left(u64),
}

// What an accept gave.
#[derive(Drop)]
enum Accepted {
    Stream(TcpStream),
    // No socket waits.
    Nothing,
    // One was lost before it was accepted.
    Lost,
    Failed,
}

/// The links of a net.
#[derive(Drop)]
pub(crate) struct Links {
    alloc: Global,
    listener: Option<TcpListener>,
    may_accept: bool,
    last: u64,
    shaking: BTreeMap<u64, Shake<TcpStream>>,
    handshakes: Handshakes,
    openings: Openings,
    open: BTreeMap<u64, Held>,
    ready: VecDeque<u64>,
    told: VecDeque<Told>,
}

fn next_stream(listener: &TcpListener) -> Accepted {
    match listener.accept() {
        Ok((stream, _)) => Accepted::Stream(stream),
        Err(error) => match error.kind() {
            ErrorKind::WouldBlock => Accepted::Nothing,
            ErrorKind::Interrupted => Accepted::Lost,
            ErrorKind::ConnectionAborted => Accepted::Lost,
            ErrorKind::ConnectionReset => Accepted::Lost,
            _ => Accepted::Failed,
        },
    }
}

// The next name of a link.
fn fresh(last: &mut u64) -> Result<u64, Memory> {
    if *last == u64::MAX {
        return Err(Memory);
    }
    *last += 1;
    Ok(*last)
}

impl Links {
    ghost use Rattle.std.specs.Prelude.{◌<◌, length};

    pub(crate) fn new(alloc: Global, listener: Option<TcpListener>, openings: Openings) -> Links {
        Links {
            alloc,
            listener,
            may_accept: true,
            last: 0,
            shaking: BTreeMap::new(alloc),
            handshakes: Handshakes::new(alloc),
            openings,
            open: BTreeMap::new(alloc),
            ready: VecDeque::new(alloc),
            told: VecDeque::new(alloc),
        }
    }

    pub(crate) fn port(&self) -> Option<u16> {
        match &self.listener {
            Some(listener) => match listener.local_addr() {
                Ok(address) => Some(address.port()),
                Err(_) => None,
            },
            None => None,
        }
    }

    /// Whether a link may have something to say.
    pub(crate) fn is_ready(&self) -> bool {
        !self.ready.is_empty()
    }

    /// The next event that waits.
    pub(crate) fn told(&mut self) -> Option<Taken> {
        match self.told.pop_front() {
            Some(Told::Opened(id)) => Some(Taken::Opened(LinkId(id))),
            Some(Told::Left(id)) => Some(Taken::Left(LinkId(id))),
            None => None,
        }
    }

    /// Something happened at the socket of this token.
    pub(crate) fn stirred(&mut self, token: usize) -> Result<(), Memory> {
        if token == LISTENER {
            self.may_accept = true;
            return Ok(());
        }
        let id = token as u64;
        if self.open.contains_key(&id) {
            return self.push(id);
        }
        self.drive(id)
    }

    // What waits for the link goes on, and it stands in the line. One that ended is told.
    fn push(&mut self, id: u64) -> Result<(), Memory> {
        let Some(held) = self.open.get_mut(&id) else {
            return Ok(());
        };
        if held.link.push()? {
            if !held.is_ready {
                held.is_ready = true;
                self.ready.push_back(id)?;
            }
            return Ok(());
        }
        let _ended = self.open.remove(&id);
        self.told.push_back(Told::Left(id))?;
        Ok(())
    }

    // A handshake goes on.
    fn drive(&mut self, id: u64) -> Result<(), Memory> {
        let Some(shake) = self.shaking.get_mut(&id) else {
            return Ok(());
        };
        match shake.drive()? {
            Driven::Waits => Ok(()),
            Driven::Opens => self.open(id),
            Driven::Ends => {
                let _ended = self.shaking.remove(&id);
                self.handshakes.end(LinkId(id));
                Ok(())
            }
        }
    }

    // A handshake has ended well: the link is open, where one more may open.
    fn open(&mut self, id: u64) -> Result<(), Memory> {
        self.handshakes.end(LinkId(id));
        let Some(shake) = self.shaking.remove(&id) else {
            return Ok(());
        };
        if !self.openings.open() {
            return Ok(());
        }
        let (stream, rest) = shake.into_parts();
        let link = WebLink::open(self.alloc, stream, rest);
        self.hold(id, link)?;
        self.told.push_back(Told::Opened(id))?;
        Ok(())
    }

    // The link is held, and stands in the line.
    fn hold(&mut self, id: u64, link: WebLink<TcpStream>) -> Result<(), Memory> {
        self.ready.push_back(id)?;
        let held = Held {
            link,
            is_ready: true,
        };
        let _before = self.open.insert(id, held)?;
        Ok(())
    }

    /// Accepts sockets, as many as may shake hands. False where the system failed.
    pub(crate) fn admit(&mut self, registry: &Registry, now: u64) -> Result<bool, Memory> {
        for _ in 0..MOST_ACCEPTS {
            if !self.may_accept || !self.openings.has_room() || !self.handshakes.has_room() {
                return Ok(true);
            }
            let Some(listener) = &self.listener else {
                return Ok(true);
            };
            match next_stream(listener) {
                Accepted::Stream(stream) => {
                    if !self.begin(registry, stream, now)? {
                        return Ok(false);
                    }
                }
                Accepted::Nothing => self.may_accept = false,
                Accepted::Lost => {}
                Accepted::Failed => return Ok(false),
            }
        }
        Ok(true)
    }

    // A handshake begins. False where the system failed.
    fn begin(
        &mut self,
        registry: &Registry,
        mut stream: TcpStream,
        now: u64,
    ) -> Result<bool, Memory>
        requires { length self.old.handshakes < MOST_HANDSHAKES }
    {
        let id = fresh(&mut self.last)?;
        self.handshakes.begin(LinkId(id), now)?;
        let both = Interest::READABLE | Interest::WRITABLE;
        if registry
            .register(&mut stream, Token(id as usize), both)
            .is_err()
        {
            self.handshakes.end(LinkId(id));
            return Ok(false);
        }
        let _slow = stream.set_nodelay(true);
        let shake = Shake::new(self.alloc, stream);
        let _before = self.shaking.insert(id, shake)?;
        self.drive(id)?;
        Ok(true)
    }

    /// Ends the handshakes that take too long.
    pub(crate) fn end_late(&mut self, now: u64) {
        for _ in 0..MOST_HANDSHAKES {
            let Some(link) = self.handshakes.late(now) else {
                return;
            };
            self.handshakes.end(link);
            let _late = self.shaking.remove(&link.0);
        }
    }

    /// The next message of the links that stand in the line, each of which is asked once.
    pub(crate) fn hear(&mut self) -> Result<Taken, Memory> {
        for _ in 0..self.ready.len() {
            let Some(id) = self.ready.pop_front() else {
                return Ok(Taken::Nothing);
            };
            if let Some(taken) = self.hear_one(id)? {
                return Ok(taken);
            }
        }
        Ok(Taken::Nothing)
    }

    fn hear_one(&mut self, id: u64) -> Result<Option<Taken>, Memory> {
        let Some(held) = self.open.get_mut(&id) else {
            return Ok(None);
        };
        match held.link.hear()? {
            Heard::Said(bytes) => {
                self.ready.push_back(id)?;
                Ok(Some(Taken::Said(LinkId(id), bytes)))
            }
            Heard::Control => {
                self.ready.push_back(id)?;
                Ok(None)
            }
            Heard::Blocked => {
                held.is_ready = false;
                Ok(None)
            }
            Heard::Ended => {
                let _ended = self.open.remove(&id);
                Ok(Some(Taken::Left(LinkId(id))))
            }
        }
    }

    /// Gives a frame. False where the link has ended; a link that isn't held takes it for nothing.
    pub(crate) fn give(&mut self, link: LinkId, frame: &[u8]) -> Result<bool, Memory> {
        let Some(held) = self.open.get_mut(&link.0) else {
            return Ok(true);
        };
        if held.link.give(frame)? {
            return Ok(true);
        }
        let _ended = self.open.remove(&link.0);
        Ok(false)
    }

    /// The link, which is held no longer.
    pub(crate) fn release(&mut self, registry: &Registry, link: LinkId) -> Option<EdgeLink> {
        let Some(held) = self.open.remove(&link.0) else {
            return None;
        };
        let Held {
            mut link,
            is_ready: _,
        } = held;
        let _gone = registry.deregister(link.stream_mut());
        Some(EdgeLink { link })
    }

    /// Holds a link under a new name. Where the system fails, it leaves at once.
    pub(crate) fn adopt(&mut self, registry: &Registry, link: EdgeLink) -> Result<LinkId, Memory> {
        let EdgeLink { mut link } = link;
        let id = fresh(&mut self.last)?;
        let both = Interest::READABLE | Interest::WRITABLE;
        if registry
            .register(link.stream_mut(), Token(id as usize), both)
            .is_err()
        {
            self.told.push_back(Told::Left(id))?;
            return Ok(LinkId(id));
        }
        self.hold(id, link)?;
        Ok(LinkId(id))
    }
}
