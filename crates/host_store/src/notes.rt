// What a store in memory was called for, with its answers.
use bytes::Bytes;
use cool_base::{FileId, Token};
use outside::{Admission, Errand, Receipt, StoreFault};

/// One call with its answer.
#[derive(Drop)]
pub enum Noted {
    Admits {
        file: FileId,
        token: Token,
        answer: Result<Admission, StoreFault>,
    },
    Fetches {
        file: FileId,
        token: Token,
        write: bool,
        answer: Result<Bytes, StoreFault>,
    },
    Puts {
        errand: Errand,
        answer: Result<Receipt, StoreFault>,
    },
    Refreshes {
        file: FileId,
        token: Token,
        answer: Result<(), StoreFault>,
    },
    Unlocks {
        file: FileId,
        token: Token,
        answer: Result<(), StoreFault>,
    },
}
