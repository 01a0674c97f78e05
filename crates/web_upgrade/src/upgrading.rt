// The request in blocks, and the answer.
ghost use Rattle.std.specs.Prelude.{◌≡◌, ◌≤◌, drop, length};

use crate::judging::{Judged, accept_bytes, judge};
use cool_base::Memory;
use std::alloc::Global;
use std::marker::Model;

/// How far a handshake is.
#[derive(Clone, Copy, Debug, PartialEq, Eq)]
pub enum Stage {
    /// The request comes.
    Hears,
    /// The request is answered, and then the WebSocket is open.
    Opens,
    /// The request is refused, and then the link ends.
    Ends,
}

/// A handshake of a WebSocket: the bytes that came, and those that are still to be said. Once the
/// request is accepted, the bytes are those behind it.
#[derive(Drop)]
pub struct Upgrading {
    alloc: Global,
    stage: Stage,
    heard: Vec<u8>,
    answer: Vec<u8>,
    said: usize,
}

impl Model for Upgrading {
    ghost use Rattle.std.specs.Prelude.{◌≤◌, drop, length};
    ghost use Rattle.web_upgrade.specs.Stages.{Shaking};

    ghost Value = { Shaking };

    ghost view = { λ u. record {
      stage = u.stage;
      heard = u.heard.items;
      left = drop u.said u.answer.items;
    } };

    ghost invariant = { λ u. u.said ≤ length u.answer.items };
}

impl Upgrading {
    ghost use Rattle.std.specs.Prelude.{◌≡◌, ◌≤◌, ◌++◌, [], drop, length, OnOk, OnErr};
    ghost use Rattle.web_upgrade.specs.declared.upgrading.Stage.{Stage};
    ghost use Rattle.web_upgrade.specs.Stages.{Hears};

    /// No byte has come.
    pub fn new(alloc: Global) -> Upgrading
        ensures { result ≡ record { stage = Stage.Hears; heard = []; left = [] } }
    {
        Upgrading {
            alloc,
            stage: Stage::Hears,
            heard: Vec::new(alloc),
            answer: Vec::new(alloc),
            said: 0,
        }
    }

    /// More bytes come of a request that isn't answered yet: all that came are judged, and where they
    /// are a request or none, the answer is to be said. After `Memory` it is as if they hadn't been
    /// judged, but they may have come.
    pub fn hear(&mut self, block: &[u8]) -> Result<(), Memory>
        requires { self.old.stage ≡ Stage.Hears }
        ensures hears { OnOk result (Hears (self.old.heard ++ block.now) self.new) }
        ensures err { OnErr result (self.new.stage ≡ Stage.Hears) }
    {
        self.heard.extend_from_slice(block)?;
        match judge(self.alloc, &self.heard)? {
            Judged::Begun => {
                self.answer.clear();
                self.said = 0;
            }
            Judged::Upgrades(accept, len) => {
                self.answer = accept_bytes(self.alloc, &accept)?;
                self.said = 0;
                self.heard.drain(..len);
                self.stage = Stage::Opens;
            }
            Judged::Refused(why) => {
                self.answer = why.bytes().to_vec(self.alloc)?;
                self.said = 0;
                self.stage = Stage::Ends;
            }
        }
        Ok(())
    }

    /// How far it is.
    pub fn stage(&self) -> Stage
        ensures { result ≡ self.now.stage }
    {
        self.stage
    }

    /// What is still to be said.
    pub fn left(&self) -> &[u8]
        ensures { result.now ≡ self.now.left }
    {
        &self.answer[self.said..]
    }

    /// So many bytes of it were said.
    pub fn said(&mut self, count: usize)
        requires { count ≤ length self.old.left }
        ensures { self.new ≡ record self.old { left = drop count self.old.left } }
    {
        self.said += count;
    }

    /// The bytes that came, or, of a request that was accepted, those behind it.
    pub fn into_heard(self) -> Vec<u8>
        ensures { result.items ≡ self.heard }
    {
        let Upgrading {
            alloc: _,
            stage: _,
            heard,
            answer: _,
            said: _,
        } = self;
        heard
    }
}
