//! Standard input as a source, standard output and standard error as sinks. None tells its bytes; each counts
//! its faults.
ghost use Rattle.std.specs.Prelude.{◌≤◌, length, None, IfSome, ◌≡◌};

use outside::{ReadStep, Sink, Source, WriteStep};
use std::io::{Read, Write};

/// A source over a reader.
#[derive(Drop)]
pub struct StandardInput<R> {
    reader: R,
    faults: u64,
}

impl<R> StandardInput<R> {
    pub fn new(reader: R) -> StandardInput<R> {
        StandardInput { reader, faults: 0 }
    }
}

impl<R: Read + Drop> Source for StandardInput<R> {
    ghost left = { λ _. None };

    ghost faults = { λ s. s.faults };

    fn read(&mut self, into: &mut [u8]) -> ReadStep {
        match self.reader.read(into) {
            Ok(0) => ReadStep::End,
            Ok(count) => ReadStep::Read(count),
            Err(_) => {
                self.faults = self.faults.saturating_add(1);
                ReadStep::Failed
            }
        }
    }
}

/// A sink over a writer. All that a write takes has left it when the write returns.
#[derive(Drop)]
pub struct StandardOutput<W> {
    writer: W,
    faults: u64,
}

impl<W> StandardOutput<W> {
    pub fn new(writer: W) -> StandardOutput<W> {
        StandardOutput { writer, faults: 0 }
    }
}

impl<W: Write + Drop> StandardOutput<W> {
    // Writes a front of the piece out of the program; None where that failed.
    fn push_out(&mut self, piece: &[u8]) -> Option<usize>
        ensures count { IfSome result (λ count. count ≤ length piece.now) }
        ensures faults { self.new.faults ≡ self.old.faults }
    {
        let count = self.writer.write(piece).ok()?;
        self.writer.flush().ok()?;
        Some(count)
    }
}

impl<W: Write + Drop> Sink for StandardOutput<W> {
    ghost written = { λ _. None };

    ghost faults = { λ s. s.faults };

    fn write(&mut self, piece: &[u8]) -> WriteStep {
        match self.push_out(piece) {
            Some(count) if count > 0 || piece.is_empty() => WriteStep::Wrote(count),
            _ => {
                self.faults = self.faults.saturating_add(1);
                WriteStep::Failed
            }
        }
    }
}
