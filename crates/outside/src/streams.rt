// Streams of bytes: a source is read, a sink is written. Each counts its faults.
ghost use Rattle.std.specs.Prelude.{◌≡◌, ◌<◌, ◌≤◌, ◌+◌, List, ℕ, length, Some, Option};
ghost use Rattle.outside.specs.Causes.{HasCause};
ghost use Rattle.outside.specs.Streams.{Reads, Writes};

use cool_base::Memory;
use std::alloc::Global;
use std::marker::Model;

/// The answer of a read.
#[derive(Clone, Copy, Debug, PartialEq, Eq)]
pub enum ReadStep {
    /// So many bytes were read: at least 1, at most as many as there was room for.
    Read(usize),
    /// No byte is left.
    End,
    /// The source failed, and its count of faults rose.
    Failed,
}

/// The answer of a write.
#[derive(Clone, Copy, Debug, PartialEq, Eq)]
pub enum WriteStep {
    /// So many bytes of the piece were written: at least 1 of a piece that isn't empty.
    Wrote(usize),
    /// The sink failed, and its count of faults rose.
    Failed,
}

/// Bytes to be read.
pub trait Source {
    /// The bytes that are left, where the source tells them.
    ghost left: { Self → Option (List ℕ) };

    /// How many faults there were. The count stays at 2^64 - 1 once it is there.
    ghost faults: { Self → ℕ };

    /// Reads into the front of `into`, which isn't empty. What stands behind that front is open.
    fn read(&mut self, into: &mut [u8]) -> ReadStep
        requires { 0 < length into.old }
        ensures reads { Reads (left self.old) (left self.new) result into.new }
        ensures cause { HasCause (faults self.old) (faults self.new) (result ≡ ReadStep.Failed) };
}

/// A place for bytes.
pub trait Sink {
    /// The bytes that were written, where the sink tells them.
    ghost written: { Self → Option (List ℕ) };

    /// How many faults there were. The count stays at 2^64 - 1 once it is there.
    ghost faults: { Self → ℕ };

    /// Writes a front of the piece.
    fn write(&mut self, piece: &[u8]) -> WriteStep
        ensures writes { Writes (written self.old) (written self.new) result piece.now }
        ensures cause { HasCause (faults self.old) (faults self.new) (result ≡ WriteStep.Failed) };
}

/// A source over bytes in memory. It never fails.
#[derive(Drop)]
pub struct MemorySource<'a> {
    rest: &'a [u8],
}

impl<'a> Model for MemorySource<'a> {
    ghost Value = { List ℕ };

    ghost view = { λ s. s.rest.now };
}

impl<'a> MemorySource<'a> {
    /// A source of these bytes.
    pub fn new(bytes: &'a [u8]) -> MemorySource<'a>
        ensures { result ≡ bytes.entry.now }
    {
        MemorySource { rest: bytes }
    }

    /// The bytes that are left.
    pub fn rest(&self) -> &[u8]
        ensures { result.now ≡ self.now }
    {
        self.rest
    }
}

impl<'a> Source for MemorySource<'a> {
    ghost use Rattle.std.specs.Prelude.{◌≡◌, ◌≢◌, ◌<◌, min, length, [], Some};
    ghost use Rattle.outside.specs.Causes.{HasCause};
    ghost use Rattle.outside.specs.Streams.{Reads};

    ghost left = { λ s. Some s };

    ghost faults = { λ _. 0 };

    fn read(&mut self, into: &mut [u8]) -> ReadStep
        requires { 0 < length into.old }
        ensures reads { Reads (Some self.old) (Some self.new) result into.new }
        ensures cause { HasCause 0 0 (result ≡ ReadStep.Failed) }

        // It gives as many bytes as there are and fit.
        ensures end { self.old ≡ [] → result ≡ ReadStep.End }
        ensures all { self.old ≢ [] → result ≡ ReadStep.Read (min (length self.old) (length into.old)) }
    {
        if self.rest.is_empty() {
            return ReadStep::End;
        }
        let count = self.rest.len().min(into.len());
        into[..count].copy_from_slice(&self.rest[..count]);
        self.rest = &self.rest[count..];
        ReadStep::Read(count)
    }
}

/// A sink in memory with a stated room. A write that goes beyond it fails and writes nothing.
#[derive(Drop)]
pub struct MemorySink {
    bytes: Vec<u8>,
    room: usize,
    faults: u64,
}

impl Model for MemorySink {
    ghost use Rattle.outside.specs.Streams.{Taken};
    ghost use Rattle.std.specs.Prelude.{◌≤◌, length, vec_capacity};

    ghost Value = { Taken };

    ghost view = { λ s. record { bytes = s.bytes.items; room = s.room; faults = s.faults } };

    ghost invariant = { λ s. (length s.bytes.items ≤ s.room) × (s.room ≤ vec_capacity s.bytes) };
}

impl MemorySink {
    ghost use Rattle.std.specs.Prelude.{◌≡◌, [], IfOk};

    /// An empty sink with room for so many bytes in all.
    pub fn new(alloc: Global, room: usize) -> Result<MemorySink, Memory>
        ensures { IfOk result (λ s. s ≡ record { bytes = []; room = room; faults = 0 }) }
    {
        let bytes = Vec::with_capacity(alloc, room)?;
        Ok(MemorySink {
            bytes,
            room,
            faults: 0,
        })
    }

    /// The bytes that were written.
    pub fn bytes(&self) -> &[u8]
        ensures { result.now ≡ self.now.bytes }
    {
        &self.bytes
    }

    /// How many writes failed; at 2^64 - 1 it stands still.
    pub fn faults(&self) -> u64
        ensures { result ≡ self.now.faults }
    {
        self.faults
    }
}

impl Sink for MemorySink {
    ghost use Rattle.std.specs.Prelude.{◌≡◌, ◌≤◌, ◌<◌, ◌+◌, ◌-◌, ◌^◌, ◌++◌, min, nat_le, length, Some, if◌then◌else◌};
    ghost use Rattle.outside.specs.Causes.{HasCause};
    ghost use Rattle.outside.specs.Streams.{Writes};

    ghost written = { λ s. Some s.bytes };

    ghost faults = { λ s. s.faults };

    fn write(&mut self, piece: &[u8]) -> WriteStep
        ensures writes { Writes (Some self.old.bytes) (Some self.new.bytes) result piece.now }
        ensures cause { HasCause self.old.faults self.new.faults (result ≡ WriteStep.Failed) }

        // It fails exactly where the piece goes beyond the room, and else takes it whole.
        ensures within { length self.old.bytes + length piece.now ≤ self.old.room → self.new ≡ record self.old { bytes = self.old.bytes ++ piece.now } }
        ensures beyond { self.old.room < length self.old.bytes + length piece.now → self.new ≡ record self.old { faults = min (self.old.faults + 1) (2 ^ 64 - 1) } }
        ensures answer { result ≡ (if nat_le (length self.old.bytes + length piece.now) self.old.room then WriteStep.Wrote (length piece.now) else WriteStep.Failed) }
    {
        if piece.len() > self.room - self.bytes.len() {
            self.faults = self.faults.saturating_add(1);
            return WriteStep::Failed;
        }
        self.bytes.extend_from_slice(piece).unwrap();
        WriteStep::Wrote(piece.len())
    }
}
