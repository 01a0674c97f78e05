// A store over a host in memory.
ghost use Rattle.std.specs.Prelude.{◌≡◌, ◌≤◌, true, IfOk, IfErr};
ghost use Rattle.outside.specs.Causes.{HasCause, Rose};
ghost use Rattle.outside.specs.Stores.{store_failed, IsReceiptOf};
ghost use Rattle.wopi_client.specs.Stores.{info_told, content_told, done_told, IsInfo, IsContent};
ghost use Rattle.host_store.specs.Exchanges.{Exchanges, is_loss};
ghost use Rattle.host_store.specs.Kept.{memory_host};

mod scripts;

use crate::carry::{carry_request, carry_response};
use crate::loops::LoopWire;
use crate::notes::Noted;
use bytes::Bytes;
use cool_base::{FileId, Memory, Token};
use http_server::Log;
use outside::{Admission, Errand, Receipt, Store, StoreFault, WireFault};
use std::alloc::Global;
use wopi_client::{Ask, Told, understand};
use wopi_host::{Host, MemoryKeeper};

/// The files of a host in memory, by requests over wires in memory.
#[derive(Drop)]
pub struct HostStore {
    host: Host<MemoryKeeper>,
    moment: u64,
    failing: u64,
    faults: u64,
    there: LoopWire,
    back: LoopWire,
    // What the store tells. No code reads it, and it has no bytes.
    calls: Log<Noted, ()>,
}

// One exchange: the request goes there, the host answers it at this moment, and its response comes
// back.
fn exchange(
    alloc: Global,
    there: &mut LoopWire,
    back: &mut LoopWire,
    host: &mut Host<MemoryKeeper>,
    now: u64,
    ask: &Ask,
) -> Result<Told, StoreFault>
    ensures { Exchanges (memory_host host.old) ask.now now result (memory_host host.new) }
{
    let request = match carry_request(alloc, there, ask) {
        Ok(request) => request,
        Err(fault) => return Err(fault),
    };
    let response = match host.answer(&request, now) {
        Ok(response) => response,
        Err(_) => return Err(StoreFault::Memory),
    };
    match carry_response(alloc, back, &response) {
        Ok(heard) => understand(alloc, ask, &heard),
        Err(fault) => Err(fault),
    }
}

// One fault more; at 2^64 - 1 the count stands still.
fn risen(faults: u64) -> u64
    ensures rose { Rose faults result }
    ensures later { faults ≤ result }
{
    faults.saturating_add(1)
}

// Whether the answer is a fault of a wire.
fn has_failed(answer: &Result<Told, StoreFault>) -> bool
    ensures { result ≡ store_failed answer.now }
{
    match answer {
        Err(StoreFault::Wire(WireFault::ReadFault | WireFault::WriteFault)) => true,
        _ => false,
    }
}

fn info_of(answer: Result<Told, StoreFault>) -> Result<Admission, StoreFault>
    requires { IfOk answer IsInfo }
    ensures { info_told result ≡ answer }
{
    match answer {
        Ok(Told::Info(admission)) => Ok(admission),
        Ok(_) => unreachable!(),
        Err(fault) => Err(fault),
    }
}

fn content_of(answer: Result<Told, StoreFault>) -> Result<Bytes, StoreFault>
    requires { IfOk answer IsContent }
    ensures { content_told result ≡ answer }
{
    match answer {
        Ok(Told::Content(content)) => Ok(content),
        Ok(_) => unreachable!(),
        Err(fault) => Err(fault),
    }
}

fn done_of(answer: Result<Told, StoreFault>) -> Result<(), StoreFault>
    requires { IfOk answer (λ told. told ≡ Told.Done) }
    ensures { done_told result ≡ answer }
{
    match answer {
        Ok(_) => Ok(()),
        Err(fault) => Err(fault),
    }
}

impl HostStore {
    ghost use Rattle.std.specs.Prelude.{◌≡◌, [], IfOk};
    ghost use Rattle.host_store.specs.Calls.{AsksOnce};
    ghost use Rattle.host_store.specs.Kept.{memory_host, store_at};

    /// A store over this host, whose clock stands at this moment, in seconds. No wire is to fail.
    pub fn new(alloc: Global, host: Host<MemoryKeeper>, now: u64) -> Result<HostStore, Memory>
        ensures made { IfOk result
            (λ store. store_at store
            ≡ record { host = memory_host host; now = now; failing = 0; faults = 0 }) }
        ensures calls { IfOk result (λ store. store.calls.items ≡ []) }
    {
        let there = LoopWire::new(alloc)?;
        let back = LoopWire::new(alloc)?;
        Ok(HostStore {
            host,
            moment: now,
            failing: 0,
            faults: 0,
            there,
            back,
            calls: Log::new(),
        })
    }

    // One operation.
    fn ask_once(&mut self, alloc: Global, ask: &Ask) -> Result<Told, StoreFault>
        ensures asked { AsksOnce (store_at self.old) ask.now result (store_at self.new) }
        ensures calls { self.new.calls ≡ self.old.calls }
    {
        if self.failing > 0 {
            self.failing -= 1;
            self.faults = risen(self.faults);
            return Err(StoreFault::Wire(WireFault::WriteFault));
        }
        let answer = exchange(
            alloc,
            &mut self.there,
            &mut self.back,
            &mut self.host,
            self.moment,
            ask,
        );
        if has_failed(&answer) {
            self.faults = risen(self.faults);
        }
        answer
    }
}

fn put_ask(alloc: Global, errand: &Errand) -> Result<Ask, Memory>
    ensures { IfOk result
        (λ ask. ask ≡ Ask.Put errand.now.file errand.now.token errand.now.content) }
{
    Ok(Ask::Put {
        file: errand.file.copy(),
        token: errand.token.copy(alloc)?,
        content: errand.content.clone()?,
    })
}

fn copy_of(alloc: Global, errand: &Errand) -> Result<Errand, Memory>
    ensures { IfOk result (λ copy. copy ≡ errand.now) }
{
    Ok(Errand {
        ticket: errand.ticket,
        file: errand.file.copy(),
        token: errand.token.copy(alloc)?,
        content: errand.content.clone()?,
        number: errand.number,
    })
}

fn receipt_of(errand: &Errand) -> Result<Receipt, Memory>
    ensures { IfOk result (IsReceiptOf errand.now) }
{
    Ok(Receipt {
        file: errand.file.copy(),
        content: errand.content.clone()?,
    })
}

// The receipt, where it was done.
fn receipt_for(answer: Result<Told, StoreFault>, receipt: Receipt) -> Result<Receipt, StoreFault>
    requires { IfOk answer (λ told. told ≡ Told.Done) }
    ensures told { done_told result ≡ answer }
    ensures receipt { IfOk result (λ given. given ≡ receipt) }
{
    match answer {
        Ok(_) => Ok(receipt),
        Err(fault) => Err(fault),
    }
}

impl HostStore {
    ghost use Rattle.std.specs.Prelude.{◌≡◌, true, IfOk};
    ghost use Rattle.outside.specs.Causes.{HasCause};
    ghost use Rattle.outside.specs.Stores.{store_failed, IsReceiptOf};
    ghost use Rattle.wopi_client.specs.Stores.{info_told, content_told, done_told};
    ghost use Rattle.host_store.specs.Calls.{Asks, AsksTwice, Fetches, Puts};
    ghost use Rattle.host_store.specs.Kept.{store_at};

    // What the token may do with the file.
    fn check(
        &mut self,
        alloc: Global,
        file: &FileId,
        token: &Token,
    ) -> Result<Admission, StoreFault>
        ensures asked { Asks (store_at self.old) (Ask.Check file.now token.now) (info_told result)
            (store_at self.new) }
        ensures cause { HasCause self.old.faults self.new.faults (store_failed result ≡ true) }
        ensures calls { self.new.calls ≡ self.old.calls }
    {
        let Ok(token) = token.copy(alloc) else {
            return Err(StoreFault::Memory);
        };
        let file = file.copy();
        info_of(self.ask_once(alloc, &Ask::Check { file, token }))
    }

    // The content of the file.
    fn get(&mut self, alloc: Global, file: &FileId, token: &Token) -> Result<Bytes, StoreFault>
        ensures asked { Asks (store_at self.old) (Ask.Get file.now token.now) (content_told result)
            (store_at self.new) }
        ensures cause { HasCause self.old.faults self.new.faults (store_failed result ≡ true) }
        ensures calls { self.new.calls ≡ self.old.calls }
    {
        let Ok(token) = token.copy(alloc) else {
            return Err(StoreFault::Memory);
        };
        let file = file.copy();
        content_of(self.ask_once(alloc, &Ask::Get { file, token }))
    }

    // A lock on the file.
    fn lock(&mut self, alloc: Global, file: &FileId, token: &Token) -> Result<(), StoreFault>
        ensures asked { Asks (store_at self.old) (Ask.Lock file.now token.now) (done_told result)
            (store_at self.new) }
        ensures cause { HasCause self.old.faults self.new.faults (store_failed result ≡ true) }
        ensures calls { self.new.calls ≡ self.old.calls }
    {
        let Ok(token) = token.copy(alloc) else {
            return Err(StoreFault::Memory);
        };
        let file = file.copy();
        done_of(self.ask_once(alloc, &Ask::Lock { file, token }))
    }

    // A later end of the lock.
    fn lock_longer(&mut self, alloc: Global, file: &FileId, token: &Token) -> Result<(), StoreFault>
        ensures asked { Asks (store_at self.old) (Ask.Refresh file.now token.now)
            (done_told result) (store_at self.new) }
        ensures cause { HasCause self.old.faults self.new.faults (store_failed result ≡ true) }
        ensures calls { self.new.calls ≡ self.old.calls }
    {
        let Ok(token) = token.copy(alloc) else {
            return Err(StoreFault::Memory);
        };
        let file = file.copy();
        done_of(self.ask_once(alloc, &Ask::Refresh { file, token }))
    }

    // That the lock goes.
    fn lock_away(&mut self, alloc: Global, file: &FileId, token: &Token) -> Result<(), StoreFault>
        ensures asked { Asks (store_at self.old) (Ask.Unlock file.now token.now) (done_told result)
            (store_at self.new) }
        ensures cause { HasCause self.old.faults self.new.faults (store_failed result ≡ true) }
        ensures calls { self.new.calls ≡ self.old.calls }
    {
        let Ok(token) = token.copy(alloc) else {
            return Err(StoreFault::Memory);
        };
        let file = file.copy();
        done_of(self.ask_once(alloc, &Ask::Unlock { file, token }))
    }

    // The content becomes that of the errand.
    fn replace(&mut self, alloc: Global, errand: &Errand) -> Result<Receipt, StoreFault>
        ensures asked { Asks (store_at self.old)
            (Ask.Put errand.now.file errand.now.token errand.now.content) (done_told result)
            (store_at self.new) }
        ensures receipt { IfOk result (IsReceiptOf errand.now) }
        ensures cause { HasCause self.old.faults self.new.faults (store_failed result ≡ true) }
        ensures calls { self.new.calls ≡ self.old.calls }
    {
        let Ok(receipt) = receipt_of(errand) else {
            return Err(StoreFault::Memory);
        };
        match put_ask(alloc, errand) {
            Ok(ask) => receipt_for(self.ask_once(alloc, &ask), receipt),
            Err(_) => Err(StoreFault::Memory),
        }
    }

    // The content of the file, which is locked first.
    fn lock_and_get(
        &mut self,
        alloc: Global,
        file: &FileId,
        token: &Token,
    ) -> Result<Bytes, StoreFault>
        ensures asked { AsksTwice (store_at self.old) (Ask.Lock file.now token.now)
            (Ask.Get file.now token.now) (content_told result) (store_at self.new) }
        ensures cause { HasCause self.old.faults self.new.faults (store_failed result ≡ true) }
        ensures calls { self.new.calls ≡ self.old.calls }
    {
        match self.lock(alloc, file, token) {
            Ok(_) => self.get(alloc, file, token),
            Err(fault) => Err(fault),
        }
    }

    // The content of the file, which is locked first where it is to be written.
    fn content_for(
        &mut self,
        alloc: Global,
        file: &FileId,
        token: &Token,
        write: bool,
    ) -> Result<Bytes, StoreFault>
        ensures asked { Fetches (store_at self.old) file.now token.now write (content_told result)
            (store_at self.new) }
        ensures cause { HasCause self.old.faults self.new.faults (store_failed result ≡ true) }
        ensures calls { self.new.calls ≡ self.old.calls }
    {
        if write {
            self.lock_and_get(alloc, file, token)
        } else {
            self.get(alloc, file, token)
        }
    }

    // The content becomes that of the errand, after a lock of the file.
    fn lock_and_replace(&mut self, alloc: Global, errand: &Errand) -> Result<Receipt, StoreFault>
        ensures asked { Puts (store_at self.old) errand.now (done_told result) (store_at self.new) }
        ensures receipt { IfOk result (IsReceiptOf errand.now) }
        ensures cause { HasCause self.old.faults self.new.faults (store_failed result ≡ true) }
        ensures calls { self.new.calls ≡ self.old.calls }
    {
        match self.lock(alloc, &errand.file, &errand.token) {
            Ok(_) => self.replace(alloc, errand),
            Err(fault) => Err(fault),
        }
    }
}

impl HostStore {
    ghost use Rattle.std.specs.Prelude.{◌≡◌, ◌∷◌, ◌++◌, []};
    ghost use Rattle.host_store.specs.Kept.{store_at};

    // Notes a call with its answer.
    fn note(&mut self, noted: Noted) -> Noted
        ensures same { result ≡ noted }
        ensures calls { self.new.calls.items ≡ self.old.calls.items ++ (noted, tt) ∷ [] }
        ensures stays { store_at self.new ≡ store_at self.old }
    {
        self.calls = self.calls.and(&noted, &());
        noted
    }
}

impl Store for HostStore {
    ghost use Rattle.std.specs.Prelude.{◌≡◌, IfOk, true, Some};
    ghost use Rattle.outside.specs.Causes.{HasCause};
    ghost use Rattle.outside.specs.Stores.{StoreCall, Tells, store_failed, IsReceiptOf};
    ghost use Rattle.wopi_client.specs.Stores.{info_told, content_told, done_told};
    ghost use Rattle.host_store.specs.Calls.{Asks, Fetches, Puts, calls_of};
    ghost use Rattle.host_store.specs.Kept.{store_at};

    ghost calls = { λ store. Some (calls_of store.calls.items) };

    ghost faults = { λ store. store.faults };

    fn admit(
        &mut self,
        alloc: Global,
        file: &FileId,
        token: &Token,
    ) -> Result<Admission, StoreFault>
        ensures told { Tells (Some (calls_of self.old.calls.items))
            (StoreCall.Admits file.now token.now result) result
            (Some (calls_of self.new.calls.items)) }
        ensures cause { HasCause self.old.faults self.new.faults (store_failed result ≡ true) }

        // It checks the file.
        ensures asked { Asks (store_at self.old) (Ask.Check file.now token.now) (info_told result)
            (store_at self.new) }
    {
        let Ok(kept) = token.copy(alloc) else {
            return Err(StoreFault::Memory);
        };
        let answer = self.check(alloc, file, token);
        let noted = Noted::Admits {
            file: file.copy(),
            token: kept,
            answer,
        };
        match self.note(noted) {
            Noted::Admits { answer, .. } => answer,
            _ => unreachable!(),
        }
    }

    fn fetch(
        &mut self,
        alloc: Global,
        file: &FileId,
        token: &Token,
        write: bool,
    ) -> Result<Bytes, StoreFault>
        ensures told { Tells (Some (calls_of self.old.calls.items))
            (StoreCall.Fetches file.now token.now write result) result
            (Some (calls_of self.new.calls.items)) }
        ensures cause { HasCause self.old.faults self.new.faults (store_failed result ≡ true) }

        // It locks the file where it is to be written, and gets it.
        ensures asked { Fetches (store_at self.old) file.now token.now write (content_told result)
            (store_at self.new) }
    {
        let Ok(kept) = token.copy(alloc) else {
            return Err(StoreFault::Memory);
        };
        let answer = self.content_for(alloc, file, token, write);
        let noted = Noted::Fetches {
            file: file.copy(),
            token: kept,
            write,
            answer,
        };
        match self.note(noted) {
            Noted::Fetches { answer, .. } => answer,
            _ => unreachable!(),
        }
    }

    fn put(&mut self, alloc: Global, errand: &Errand) -> Result<Receipt, StoreFault>
        ensures told { Tells (Some (calls_of self.old.calls.items))
            (StoreCall.Puts errand.now result) result (Some (calls_of self.new.calls.items)) }
        ensures receipt { IfOk result (IsReceiptOf errand.now) }
        ensures cause { HasCause self.old.faults self.new.faults (store_failed result ≡ true) }

        // It locks the file and puts the content.
        ensures asked { Puts (store_at self.old) errand.now (done_told result) (store_at self.new) }
    {
        let Ok(kept) = copy_of(alloc, errand) else {
            return Err(StoreFault::Memory);
        };
        let answer = self.lock_and_replace(alloc, errand);
        match self.note(Noted::Puts {
            errand: kept,
            answer,
        }) {
            Noted::Puts { answer, .. } => answer,
            _ => unreachable!(),
        }
    }

    fn refresh(&mut self, alloc: Global, file: &FileId, token: &Token) -> Result<(), StoreFault>
        ensures told { Tells (Some (calls_of self.old.calls.items))
            (StoreCall.Refreshes file.now token.now result) result
            (Some (calls_of self.new.calls.items)) }
        ensures cause { HasCause self.old.faults self.new.faults (store_failed result ≡ true) }

        // It refreshes the lock.
        ensures asked { Asks (store_at self.old) (Ask.Refresh file.now token.now)
            (done_told result) (store_at self.new) }
    {
        let Ok(kept) = token.copy(alloc) else {
            return Err(StoreFault::Memory);
        };
        let answer = self.lock_longer(alloc, file, token);
        let noted = Noted::Refreshes {
            file: file.copy(),
            token: kept,
            answer,
        };
        match self.note(noted) {
            Noted::Refreshes { answer, .. } => answer,
            _ => unreachable!(),
        }
    }

    fn unlock(&mut self, alloc: Global, file: &FileId, token: &Token) -> Result<(), StoreFault>
        ensures told { Tells (Some (calls_of self.old.calls.items))
            (StoreCall.Unlocks file.now token.now result) result
            (Some (calls_of self.new.calls.items)) }
        ensures cause { HasCause self.old.faults self.new.faults (store_failed result ≡ true) }

        // It takes the lock away.
        ensures asked { Asks (store_at self.old) (Ask.Unlock file.now token.now) (done_told result)
            (store_at self.new) }
    {
        let Ok(kept) = token.copy(alloc) else {
            return Err(StoreFault::Memory);
        };
        let answer = self.lock_away(alloc, file, token);
        let noted = Noted::Unlocks {
            file: file.copy(),
            token: kept,
            answer,
        };
        match self.note(noted) {
            Noted::Unlocks { answer, .. } => answer,
            _ => unreachable!(),
        }
    }
}
