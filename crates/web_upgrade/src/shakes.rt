// A handshake over a stream.
ghost use Rattle.std.specs.Prelude.{◌≢◌, Some};
ghost use Rattle.web_upgrade.specs.declared.shakes.Driven.{Driven};

use crate::upgrading::{Stage, Upgrading};
use cool_base::Memory;
use std::alloc::Global;
use std::io::{ErrorKind, Read, Write};

/// How many bytes one read asks the system for.
const READ_SIZE: usize = 4_096;

/// The most reads and writes of one drive.
const MOST_STEPS: usize = 64;

/// What a drive comes to.
#[derive(Clone, Copy, Debug, PartialEq, Eq)]
pub enum Driven {
    /// The stream would wait.
    Waits,
    /// The request was accepted, and the answer has left.
    Opens,
    /// The request was refused and the answer has left, or the stream is at its end or failed.
    Ends,
}

// What an error of the stream comes to. None where more may be done.
fn stopped(kind: ErrorKind) -> Option<Driven>
    ensures { result ≢ Some Driven.Opens }
{
    if kind == ErrorKind::WouldBlock {
        return Some(Driven::Waits);
    }
    if kind == ErrorKind::Interrupted {
        return None;
    }
    Some(Driven::Ends)
}

/// A handshake of a WebSocket over a stream.
#[derive(Drop)]
pub struct Shake<S: Drop> {
    stream: S,
    upgrading: Upgrading,
}

impl<S: Drop> Shake<S> {
    ghost use Rattle.std.specs.Prelude.{◌≡◌, []};
    ghost use Rattle.web_upgrade.specs.declared.upgrading.Stage.TheVariants.{Hears};

    /// A handshake over the stream. No byte has come.
    pub fn new(alloc: Global, stream: S) -> Shake<S>
        ensures stream { result.stream ≡ stream }
        ensures fresh { result.upgrading ≡ record { stage = Hears; heard = []; left = [] } }
    {
        Shake {
            stream,
            upgrading: Upgrading::new(alloc),
        }
    }

    /// The stream.
    pub fn stream_mut(&mut self) -> &mut S {
        &mut self.stream
    }

    /// The stream, and the bytes that came behind the request.
    pub fn into_parts(self) -> (S, Vec<u8>)
        ensures stream { result.0 ≡ self.stream }
        ensures heard { result.1.items ≡ self.upgrading.heard }
    {
        let Shake { stream, upgrading } = self;
        (stream, upgrading.into_heard())
    }
}

impl<S: Read + Write + Drop> Shake<S> {
    ghost use Rattle.std.specs.Prelude.{◌≡◌, ◌≢◌, [], Some, IfOk, IfSome};
    ghost use Rattle.web_upgrade.specs.Driving.{IsDriven};
    ghost use Rattle.web_upgrade.specs.declared.shakes.Driven.{Driven};
    ghost use Rattle.web_upgrade.specs.declared.upgrading.Stage.{Stage};

    /// Reads the request and writes the answer, as far as the stream goes: at most `MOST_STEPS` reads
    /// and writes.
    pub fn drive(&mut self) -> Result<Driven, Memory>
        ensures { IfOk result (IsDriven self.new.upgrading) }
    {
        for _ in 0..MOST_STEPS {
            let driven = match self.upgrading.stage() {
                Stage::Hears => self.read_some()?,
                Stage::Opens => self.write_some(Driven::Opens),
                Stage::Ends => self.write_some(Driven::Ends),
            };
            if let Some(driven) = driven {
                return Ok(driven);
            }
        }
        Ok(Driven::Waits)
    }

    // Reads a block. None where more may be done.
    fn read_some(&mut self) -> Result<Option<Driven>, Memory>
        requires { self.old.upgrading.stage ≡ Stage.Hears }
        ensures { IfOk result (λ driven. driven ≢ Some Driven.Opens) }
    {
        let mut block = [0; READ_SIZE];
        match self.stream.read(&mut block) {
            Ok(0) => Ok(Some(Driven::Ends)),
            Ok(count) => {
                self.upgrading.hear(&block[..count])?;
                Ok(None)
            }
            Err(error) => Ok(stopped(error.kind())),
        }
    }

    // Writes some of the answer. None where more may be done.
    fn write_some(&mut self, done: Driven) -> Option<Driven>
        ensures { IfSome result (λ driven. driven ≡ Driven.Opens → (done ≡ Driven.Opens)
            × (self.new.upgrading.left ≡ [])
            × (self.new.upgrading.stage ≡ self.old.upgrading.stage)) }
    {
        let left = self.upgrading.left();
        if left.is_empty() {
            return Some(done);
        }
        match self.stream.write(left) {
            Ok(0) => Some(Driven::Ends),
            Ok(count) => {
                self.upgrading.said(count);
                None
            }
            Err(error) => stopped(error.kind()),
        }
    }
}
