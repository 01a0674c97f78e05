// A wire over stated bytes that fails, and the messages that are sent over it.
use outside::{ReadStep, Wire, WriteStep};

// A put of three bytes, as the client asks it.
pub(crate) const PUT: &[u8] =
    b"POST /wopi/files/d/contents?access_token=t-rw HTTP/1.1\r\nHost: h\r\nConnection: close\r\nContent-Length: 3\r\nX-WOPI-Lock: cool-d\r\nX-WOPI-Override: PUT\r\n\r\nabc";

// A response in two chunks, with an extension and a trailer.
pub(crate) const CHUNKED: &[u8] =
    b"HTTP/1.1 200 OK\r\nTransfer-Encoding: Chunked\r\n\r\n2;a=b\r\nhe\r\n3\r\nllo\r\n0\r\nA: b\r\n\r\n";

// A wire that gives its bytes one at a time, or takes them one at a time where they are the ones
// that are sent, and fails after the first `good` of them.
#[derive(Drop)]
pub(crate) struct FailingWire {
    pub(crate) bytes: &'static [u8],
    pub(crate) good: usize,
    pub(crate) passed: usize,
    pub(crate) faults: u64,
}

impl FailingWire {
    ghost use Rattle.std.specs.Prelude.{◌≡◌};

    pub(crate) fn new(bytes: &'static [u8], good: usize) -> FailingWire {
        FailingWire {
            bytes,
            good,
            passed: 0,
            faults: 0,
        }
    }

    // The next byte; none where the wire fails or the bytes end.
    fn next(&mut self) -> Option<u8>
        ensures { self.new.faults ≡ self.old.faults }
    {
        if self.passed >= self.good {
            return None;
        }
        let byte = self.bytes.get(self.passed).copied();
        self.passed += 1;
        byte
    }
}

impl Wire for FailingWire {
    ghost use Rattle.std.specs.Prelude.{None};

    ghost talk = { λ _. None };

    ghost faults = { λ w. w.faults };

    fn send(&mut self, piece: &[u8]) -> WriteStep {
        let Some(first) = piece.first() else {
            return WriteStep::Wrote(0);
        };
        if self.next() == Some(*first) {
            return WriteStep::Wrote(1);
        }
        self.faults = self.faults.saturating_add(1);
        WriteStep::Failed
    }

    fn receive(&mut self, into: &mut [u8]) -> ReadStep {
        match self.next() {
            Some(byte) => {
                into[0] = byte;
                ReadStep::Read(1)
            }
            None => {
                self.faults = self.faults.saturating_add(1);
                ReadStep::Failed
            }
        }
    }
}
