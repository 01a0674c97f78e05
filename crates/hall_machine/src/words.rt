//! The words of the hall: labels, entries, answers and refusals.
ghost use Rattle.std.specs.Prelude.{◌≡◌, IfOk};
ghost use Rattle.hall_machine.specs.declared.words.Label.{Label};

use cool_base::{DocId, FileId, Memory};
use std::alloc::Global;
use std::collections::LinkedList;
use std::marker::Model;
use thiserror::Error;

/// What the book keeps of a mail.
#[derive(Clone, Copy, Debug, PartialEq, Eq)]
pub struct Label {
    pub kind: u8,
    pub number: u64,
}

/// A mail, of which the book keeps a label.
pub trait Labelled: Drop {
    ghost tag: { Self → Label };

    fn label(&self) -> Label
        ensures { result ≡ tag self.now };
}

/// What no call changes: the number of polls, and the room of the book in entries.
#[derive(Clone, Copy, Debug, PartialEq, Eq)]
pub struct Ground {
    pub polls: u32,
    pub room: u32,
}

/// The file of a new document, which the book keeps. Contracts see its bytes.
#[derive(Drop)]
pub struct Filed {
    file: Box<FileId>,
}

impl Model for Filed {
    ghost use Rattle.std.specs.Prelude.{ℕ, List};
    ghost use Rattle.std.specs.Coded.{coded_list, coded_ℕ};

    ghost Value = { List ℕ };

    ghost coded = { coded_list coded_ℕ };

    ghost view = { λ a. a.file.value };
}

impl Filed {
    /// A copy of the file id, on the heap.
    pub fn of(alloc: Global, file: &FileId) -> Result<Filed, Memory>
        ensures { IfOk result (λ f. f ≡ file.now) }
    {
        let file = Box::new(alloc, file.copy())?;
        Ok(Filed { file })
    }
}

/// What was done: `enter` opened a new document of a file; `post` with the mail's label and whether
/// it was urgent; `collect` with the number of mails; `depart` with the target; `arrive`; `close`.
#[derive(Drop)]
pub enum HallAct {
    Enter(Filed),
    Post(Label, bool),
    Collect(u32),
    Depart(u32),
    Arrive,
    Close,
}

/// One entry of the book: the caller, the document, and what was done.
#[derive(Drop)]
pub struct Entry {
    pub who: u32,
    pub doc: u32,
    pub act: HallAct,
}

/// Which poll has a document: its owner, or the poll that its parcel is on its way to.
#[derive(Drop)]
pub enum Holder<P> {
    At(u32),
    To(u32, P),
}

/// An open document: its id and file, who has it, and the mails that wait for it, in the order in
/// which they were posted.
#[derive(Drop)]
pub struct OpenDocument<P, M> {
    pub doc: u32,
    pub file: FileId,
    pub holder: Holder<P>,
    pub mails: LinkedList<M>,
}

/// What `enter` found or made.
#[derive(Clone, Copy, Debug, PartialEq, Eq)]
pub enum Entered {
    /// The file is open already.
    There(DocId),
    /// A new document of the file, which the caller owns.
    Fresh(DocId),
}

#[derive(Clone, Copy, Debug, PartialEq, Eq, Error)]
pub enum HallFault {
    #[error("64 documents are open")]
    HallFull,
    #[error("the book has no room left")]
    BookFull,
    #[error("too many mails wait for the document")]
    MailFull,
    #[error("the document is not open")]
    Gone,
    #[error("the document is with poll {0}")]
    NotHere(u32),
    #[error("out of memory")]
    Memory,
}

/// A refusal, with the value that was handed in.
#[derive(Drop)]
pub struct Refused<X> {
    pub why: HallFault,
    pub value: X,
}

/// Why `collect` took nothing.
#[derive(Clone, Copy, Debug, PartialEq, Eq, Error)]
pub enum Owner {
    #[error("the document is not open")]
    Gone,
    #[error("the document is with poll {0}")]
    NotHere(u32),
}

#[derive(Clone, Copy, Debug, PartialEq, Eq, Error)]
pub enum CloseFault {
    #[error("the document is not open")]
    Gone,
    #[error("the document is with poll {0}")]
    NotHere(u32),
    #[error("{0} mails wait for the document")]
    Waiting(u32),
}
