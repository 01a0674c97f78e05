// A wire with limits of time.
use outside::{ReadStep, Wire, WriteStep};
use std::io::{self, Read, Write};
use std::net::TcpStream;
use std::rt::Clock;
use std::time::{Duration, Instant};

/// A wire that fails where one read or write waits too long, and, from the end of its time on, at each.
/// So a peer that sends nothing, or a byte now and then, holds its caller for that time at most.
#[derive(Drop)]
pub struct TimedWire<'a, R> {
    rt: &'a R,
    stream: TcpStream,
    began: Instant,
    whole: Duration,
    faults: u64,
}

impl<'a, R: Clock> TimedWire<'a, R> {
    ghost use Rattle.std.specs.Prelude.{◌≡◌, IfOk};

    /// The wire over a stream. One read or write waits at most for `wait`, and the wire's time ends
    /// `whole` after this call. What is written leaves at once.
    pub fn of(
        rt: &'a R,
        stream: TcpStream,
        wait: Duration,
        whole: Duration,
    ) -> io::Result<TimedWire<'a, R>>
        ensures { IfOk result (λ wire. wire.faults ≡ 0) }
    {
        stream.set_read_timeout(Some(wait))?;
        stream.set_write_timeout(Some(wait))?;
        stream.set_nodelay(true)?;
        let began = Instant::now(rt)?;
        Ok(TimedWire {
            rt,
            stream,
            began,
            whole,
            faults: 0,
        })
    }

    /// How many sends and receives failed. The count stays at 2^64 - 1 once it is there.
    pub fn faults(&self) -> u64
        ensures { result ≡ self.now.faults }
    {
        self.faults
    }

    // Whether the wire's time has ended, or can't be told.
    fn is_over(&self) -> bool {
        match self.began.elapsed(self.rt) {
            Ok(passed) => passed >= self.whole,
            Err(_) => true,
        }
    }
}

impl<'a, R: Clock> Wire for TimedWire<'a, R> {
    ghost use Rattle.std.specs.Prelude.{None};

    ghost talk = { λ _. None };

    ghost faults = { λ w. w.faults };

    fn send(&mut self, piece: &[u8]) -> WriteStep {
        if self.is_over() {
            self.faults = self.faults.saturating_add(1);
            return WriteStep::Failed;
        }
        match self.stream.write(piece) {
            Ok(count) if count > 0 || piece.is_empty() => WriteStep::Wrote(count),
            _ => {
                self.faults = self.faults.saturating_add(1);
                WriteStep::Failed
            }
        }
    }

    fn receive(&mut self, into: &mut [u8]) -> ReadStep {
        if self.is_over() {
            self.faults = self.faults.saturating_add(1);
            return ReadStep::Failed;
        }
        match self.stream.read(into) {
            Ok(0) => ReadStep::End,
            Ok(count) => ReadStep::Read(count),
            Err(_) => {
                self.faults = self.faults.saturating_add(1);
                ReadStep::Failed
            }
        }
    }
}
