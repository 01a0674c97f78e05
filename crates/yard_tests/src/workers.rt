// A thread that does works, with all that it has outside.
use bytes::Bytes;
use cool_base::{DocId, FileId, Memory, Ticket, Token};
use kit_trait::{Pixels, Scene};
use outside::{Admission, Errand, Receipt, Store, StoreFault};
use paint_yard::{Gate, Post, Posted, WorkEnd, WorkerEnd, worker_run};
use std::alloc::Global;
use std::sync::Wait;
use yard_traits::{Answer, Answered, Work};

/// The document that is gone when its answers come.
pub const GONE: DocId = DocId(9);

/// A scene of one pixel.
#[derive(Clone, Copy, Debug, PartialEq, Eq)]
pub struct Shade(pub u8);

impl Scene for Shade {
    ghost use Rattle.std.specs.Prelude.{◌∷◌, []};
    ghost use Rattle.std.proofs.Common.{rules};

    ghost paints = { λ s. record {
      width = 1;
      height = 1;
      rgba = s.0 ∷ s.0 ∷ s.0 ∷ 255 ∷ [];
    } };

    fn paint(&self, alloc: Global) -> Result<Pixels, Memory> {
        let shade = self.0;
        Ok(Pixels {
            width: 1,
            height: 1,
            rgba: Bytes::copy_from_slice(alloc, &[shade, shade, shade, 255])?,
        })
    }

    fn copy(&self, _alloc: Global) -> Result<Shade, Memory> {
        Ok(*self)
    }

    ghost exact = { Prim.search rules };
}

/// How many works were let through.
#[derive(Drop)]
pub struct CountingGate {
    pub passed: u64,
}

impl Gate for CountingGate {
    ghost use Rattle.std.specs.Prelude.{None};

    ghost passes = { λ _. None };

    fn pass(&mut self, _work: u64) {
        self.passed = self.passed.saturating_add(1);
    }
}

/// A store that answers each put by this status, but the put with one number, for which it lacks
/// memory.
#[derive(Drop)]
pub struct StatusStore {
    pub status: u16,
    pub lacks: u64,
}

impl Store for StatusStore {
    ghost use Rattle.std.specs.Prelude.{None};

    ghost calls = { λ _. None };

    ghost faults = { λ _. 0 };

    fn admit(
        &mut self,
        _alloc: Global,
        _file: &FileId,
        _token: &Token,
    ) -> Result<Admission, StoreFault> {
        Err(StoreFault::Missing)
    }

    fn fetch(
        &mut self,
        _alloc: Global,
        _file: &FileId,
        _token: &Token,
        _write: bool,
    ) -> Result<Bytes, StoreFault> {
        Err(StoreFault::Missing)
    }

    fn put(&mut self, _alloc: Global, errand: &Errand) -> Result<Receipt, StoreFault> {
        if errand.number == self.lacks {
            return Err(StoreFault::Memory);
        }
        if self.status != 200 {
            return Err(StoreFault::BadAnswer(self.status));
        }
        match errand.content.clone() {
            Ok(content) => Ok(Receipt {
                file: errand.file.copy(),
                content,
            }),
            Err(_) => Err(StoreFault::Memory),
        }
    }

    fn refresh(
        &mut self,
        _alloc: Global,
        _file: &FileId,
        _token: &Token,
    ) -> Result<(), StoreFault> {
        Err(StoreFault::Missing)
    }

    fn unlock(&mut self, _alloc: Global, _file: &FileId, _token: &Token) -> Result<(), StoreFault> {
        Err(StoreFault::Missing)
    }
}

/// What an answer says: the first byte of a picture, the first byte that a host took, or the code
/// of a refusal.
#[derive(Clone, Copy, Debug, PartialEq, Eq)]
pub enum Says {
    Painted(u8),
    Stored(u8),
    Refused(u16),
}

/// An answer that was posted.
#[derive(Clone, Copy, Debug, PartialEq, Eq)]
pub struct Noted {
    pub doc: DocId,
    pub ticket: Ticket,
    pub says: Says,
}

fn first_byte(bytes: &Bytes) -> u8 {
    match bytes.as_slice() {
        [first, ..] => *first,
        [] => 0,
    }
}

fn noted_of(doc: DocId, answer: &Answer<Shade>) -> Noted {
    match answer {
        Answered::Painted(done) => Noted {
            doc,
            ticket: done.ticket,
            says: Says::Painted(first_byte(&done.pixels.rgba)),
        },
        Answered::PutDone { ticket, result } => Noted {
            doc,
            ticket: *ticket,
            says: match result {
                Ok(receipt) => Says::Stored(first_byte(&receipt.content)),
                Err(fault) => Says::Refused(fault.code()),
            },
        },
    }
}

/// A post that refuses each answer once before it takes it.
#[derive(Drop)]
pub struct SlowPost {
    pub taken: Vec<Noted>,
    pub refused: bool,
}

impl Post<Answer<Shade>> for SlowPost {
    ghost use Rattle.std.specs.Prelude.{None};

    ghost told = { λ _. None };

    fn post(&mut self, doc: DocId, answer: Answer<Shade>) -> Posted<Answer<Shade>> {
        if doc == GONE {
            return Posted::Gone;
        }
        self.refused = !self.refused;
        if self.refused {
            return Posted::Again(answer);
        }
        match self.taken.push(noted_of(doc, &answer)) {
            Ok(()) => Posted::Put,
            Err(_) => Posted::Memory(answer),
        }
    }
}

/// A thread's end of the queue, with its gate, store and post.
#[derive(Drop)]
pub struct Worker {
    pub end: WorkEnd<Work<Shade>>,
    pub gate: CountingGate,
    pub store: StatusStore,
    pub post: SlowPost,
}

impl Worker {
    /// A worker whose store answers by this status.
    pub fn new(alloc: Global, end: WorkEnd<Work<Shade>>, status: u16, lacks: u64) -> Worker {
        Worker {
            end,
            gate: CountingGate { passed: 0 },
            store: StatusStore { status, lacks },
            post: SlowPost {
                taken: Vec::new(alloc),
                refused: false,
            },
        }
    }

    /// Does works up to a close mark, or to one for which there is no memory.
    pub fn work<R: Wait>(&mut self, rt: &R, alloc: Global) -> WorkerEnd {
        worker_run(
            rt,
            alloc,
            &mut self.end,
            &mut self.gate,
            &mut self.store,
            &mut self.post,
        )
    }
}
