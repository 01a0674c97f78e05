// A wire over a stream.
use outside::{ReadStep, Wire, WriteStep};
use std::io::{Read, Write};
use std::net::TcpStream;

/// A wire over a stream.
#[derive(Drop)]
pub struct TcpWire {
    stream: TcpStream,
    faults: u64,
}

impl TcpWire {
    ghost use Rattle.std.specs.Prelude.{◌≡◌};

    /// The wire over a stream.
    pub fn of(stream: TcpStream) -> TcpWire
        ensures { result.faults ≡ 0 }
    {
        TcpWire { stream, faults: 0 }
    }
}

impl Wire for TcpWire {
    ghost use Rattle.std.specs.Prelude.{None};

    ghost talk = { λ _. None };

    ghost faults = { λ w. w.faults };

    fn send(&mut self, piece: &[u8]) -> WriteStep {
        match self.stream.write(piece) {
            Ok(count) if count > 0 || piece.is_empty() => WriteStep::Wrote(count),
            _ => {
                self.faults = self.faults.saturating_add(1);
                WriteStep::Failed
            }
        }
    }

    fn receive(&mut self, into: &mut [u8]) -> ReadStep {
        match self.stream.read(into) {
            Ok(0) => ReadStep::End,
            Ok(count) => ReadStep::Read(count),
            Err(_) => {
                self.faults = self.faults.saturating_add(1);
                ReadStep::Failed
            }
        }
    }
}
