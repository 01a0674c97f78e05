// A store of files with locks.
ghost use Rattle.std.specs.Prelude.{◌≡◌, true, List, Option, ℕ, IfOk};
ghost use Rattle.outside.specs.Causes.{HasCause};
ghost use Rattle.outside.specs.Stores.{StoreCall, Admits, Fetches, Puts, Refreshes, Unlocks, Tells, IsReceiptOf, store_failed};

use crate::errands::{Admission, Errand, Receipt};
use crate::faults::StoreFault;
use bytes::Bytes;
use cool_base::{FileId, Token};
use std::alloc::Global;

/// Files behind a host. A read or write fault of its wires comes only where the store's count of
/// faults rose in that call; every other wire fault says that the host's bytes were no answer.
pub trait Store {
    /// The calls with their answers, where the store tells them. A call that memory refused need not be
    /// among them.
    ghost calls: { Self → Option (List StoreCall) };

    /// How many faults there were. The count stays at 2^64 - 1 once it is there.
    ghost faults: { Self → ℕ };

    /// What the token may do with the file.
    fn admit(
        &mut self,
        alloc: Global,
        file: &FileId,
        token: &Token,
    ) -> Result<Admission, StoreFault>
        ensures told { Tells (calls self.old) (StoreCall.Admits file.now token.now result) result (calls self.new) }
        ensures cause { HasCause (faults self.old) (faults self.new) (store_failed result ≡ true) };

    /// The file's content. Where it is to be written, the file is locked first.
    fn fetch(
        &mut self,
        alloc: Global,
        file: &FileId,
        token: &Token,
        write: bool,
    ) -> Result<Bytes, StoreFault>
        ensures told { Tells (calls self.old) (StoreCall.Fetches file.now token.now write result) result (calls self.new) }
        ensures cause { HasCause (faults self.old) (faults self.new) (store_failed result ≡ true) };

    /// Locks the file, which refreshes a lock of the same id, and then stores the content. A receipt
    /// is for exactly this content of this file.
    fn put(&mut self, alloc: Global, errand: &Errand) -> Result<Receipt, StoreFault>
        ensures told { Tells (calls self.old) (StoreCall.Puts errand.now result) result (calls self.new) }
        ensures receipt { IfOk result (IsReceiptOf errand.now) }
        ensures cause { HasCause (faults self.old) (faults self.new) (store_failed result ≡ true) };

    /// Refreshes the file's lock.
    fn refresh(&mut self, alloc: Global, file: &FileId, token: &Token) -> Result<(), StoreFault>
        ensures told { Tells (calls self.old) (StoreCall.Refreshes file.now token.now result) result (calls self.new) }
        ensures cause { HasCause (faults self.old) (faults self.new) (store_failed result ≡ true) };

    /// Takes the file's lock away.
    fn unlock(&mut self, alloc: Global, file: &FileId, token: &Token) -> Result<(), StoreFault>
        ensures told { Tells (calls self.old) (StoreCall.Unlocks file.now token.now result) result (calls self.new) }
        ensures cause { HasCause (faults self.old) (faults self.new) (store_failed result ≡ true) };
}
