//! A store behind a dial.
ghost use Rattle.std.specs.Prelude.{◌≡◌, IfOk, true, Option, List, None};
ghost use Rattle.outside.specs.Causes.{HasCause};
ghost use Rattle.outside.specs.Stores.{store_failed, IsReceiptOf};
ghost use Rattle.wopi_client.specs.Talks.{AskedOnce};
ghost use Rattle.wopi_client.specs.Stores.{info_told, content_told, done_told, IsInfo, IsContent};

use crate::asks::{Ask, Told};
use crate::talks::ask_once;
use bytes::Bytes;
use cool_base::{FileId, Memory, TextOf, Token};
use outside::{Admission, Errand, Receipt, Store, StoreFault};
use std::alloc::Global;
use wopi_dial::Dial;

/// The files of a host, by requests over wires that a dial gives.
#[derive(Drop)]
pub struct WopiStore<D: Dial> {
    dial: D,
    host: TextOf,
}

fn info_of(answer: Result<Told, StoreFault>) -> Result<Admission, StoreFault>
    requires { IfOk answer IsInfo }
    ensures { info_told result ≡ answer }
{
    match answer {
        Ok(Told::Info(admission)) => Ok(admission),
        Ok(_) => unreachable!(),
        Err(fault) => Err(fault),
    }
}

fn content_of(answer: Result<Told, StoreFault>) -> Result<Bytes, StoreFault>
    requires { IfOk answer IsContent }
    ensures { content_told result ≡ answer }
{
    match answer {
        Ok(Told::Content(content)) => Ok(content),
        Ok(_) => unreachable!(),
        Err(fault) => Err(fault),
    }
}

fn done_of(answer: Result<Told, StoreFault>) -> Result<(), StoreFault>
    requires { IfOk answer (λ told. told ≡ Told.Done) }
    ensures { done_told result ≡ answer }
{
    match answer {
        Ok(_) => Ok(()),
        Err(fault) => Err(fault),
    }
}

fn check_ask(alloc: Global, file: &FileId, token: &Token) -> Result<Ask, Memory>
    ensures { IfOk result (λ ask. ask ≡ Ask.Check file.now token.now) }
{
    Ok(Ask::Check {
        file: file.copy(),
        token: token.copy(alloc)?,
    })
}

fn get_ask(alloc: Global, file: &FileId, token: &Token) -> Result<Ask, Memory>
    ensures { IfOk result (λ ask. ask ≡ Ask.Get file.now token.now) }
{
    Ok(Ask::Get {
        file: file.copy(),
        token: token.copy(alloc)?,
    })
}

fn lock_ask(alloc: Global, file: &FileId, token: &Token) -> Result<Ask, Memory>
    ensures { IfOk result (λ ask. ask ≡ Ask.Lock file.now token.now) }
{
    Ok(Ask::Lock {
        file: file.copy(),
        token: token.copy(alloc)?,
    })
}

fn refresh_ask(alloc: Global, file: &FileId, token: &Token) -> Result<Ask, Memory>
    ensures { IfOk result (λ ask. ask ≡ Ask.Refresh file.now token.now) }
{
    Ok(Ask::Refresh {
        file: file.copy(),
        token: token.copy(alloc)?,
    })
}

fn unlock_ask(alloc: Global, file: &FileId, token: &Token) -> Result<Ask, Memory>
    ensures { IfOk result (λ ask. ask ≡ Ask.Unlock file.now token.now) }
{
    Ok(Ask::Unlock {
        file: file.copy(),
        token: token.copy(alloc)?,
    })
}

fn put_ask(alloc: Global, errand: &Errand) -> Result<Ask, Memory>
    ensures { IfOk result (λ ask. ask ≡ Ask.Put errand.now.file errand.now.token errand.now.content) }
{
    Ok(Ask::Put {
        file: errand.file.copy(),
        token: errand.token.copy(alloc)?,
        content: errand.content.clone()?,
    })
}

fn receipt_of(errand: &Errand) -> Result<Receipt, Memory>
    ensures { IfOk result (IsReceiptOf errand.now) }
{
    Ok(Receipt {
        file: errand.file.copy(),
        content: errand.content.clone()?,
    })
}

// The receipt, where it was done.
fn receipt_for(answer: Result<Told, StoreFault>, receipt: Receipt) -> Result<Receipt, StoreFault>
    requires { IfOk answer (λ told. told ≡ Told.Done) }
    ensures told { done_told result ≡ answer }
    ensures receipt { IfOk result (λ given. given ≡ receipt) }
{
    match answer {
        Ok(_) => Ok(receipt),
        Err(fault) => Err(fault),
    }
}

impl<D: Dial + Drop> WopiStore<D> {
    ghost use Rattle.std.specs.Prelude.{◌≡◌, IfOk};
    ghost use Rattle.wopi_client.specs.Kept.{dial_of, host_of};

    /// A store that names this host in its requests. Nothing is dialled.
    pub fn new(alloc: Global, dial: D, host: &str) -> Result<WopiStore<D>, Memory>
        ensures dial { IfOk result (λ store. dial_of store ≡ dial) }
        ensures host { IfOk result (λ store. host_of store ≡ host.now) }
    {
        let host = TextOf::of(String::from_str(alloc, host)?);
        Ok(WopiStore { dial, host })
    }
}

impl<D: Dial> WopiStore<D> {
    ghost use Rattle.std.specs.Prelude.{◌≡◌, IfOk, true};
    ghost use Rattle.outside.specs.Causes.{HasCause};
    ghost use Rattle.outside.specs.Stores.{store_failed, IsReceiptOf};
    ghost use Rattle.wopi_client.specs.Talks.{AskedOnce};
    ghost use Rattle.wopi_client.specs.Stores.{info_told, content_told, done_told};
    ghost use Rattle.wopi_client.specs.Kept.{dial_of, host_of};

    /// The dial, lent.
    pub fn dial(&self) -> &D
        ensures { result.now ≡ dial_of self.now }
    {
        &self.dial
    }

    /// What the token may do with the file, in one talk.
    pub fn check_file_info(
        &mut self,
        alloc: Global,
        file: &FileId,
        token: &Token,
    ) -> Result<Admission, StoreFault>
        ensures asked { AskedOnce (host_of self.old) (Ask.Check file.now token.now) (D.told (dial_of self.old)) (D.told (dial_of self.new)) (info_told result) }
        ensures host { host_of self.new ≡ host_of self.old }
        ensures away { D.away (dial_of self.new) ≡ D.away (dial_of self.old) }
        ensures cause { HasCause (D.faults (dial_of self.old)) (D.faults (dial_of self.new)) (store_failed result ≡ true) }
    {
        match check_ask(alloc, file, token) {
            Ok(ask) => info_of(ask_once(alloc, &mut self.dial, self.host.get(), &ask)),
            Err(_) => Err(StoreFault::Memory),
        }
    }

    /// The content of the file, in one talk.
    pub fn get_file(
        &mut self,
        alloc: Global,
        file: &FileId,
        token: &Token,
    ) -> Result<Bytes, StoreFault>
        ensures asked { AskedOnce (host_of self.old) (Ask.Get file.now token.now) (D.told (dial_of self.old)) (D.told (dial_of self.new)) (content_told result) }
        ensures host { host_of self.new ≡ host_of self.old }
        ensures away { D.away (dial_of self.new) ≡ D.away (dial_of self.old) }
        ensures cause { HasCause (D.faults (dial_of self.old)) (D.faults (dial_of self.new)) (store_failed result ≡ true) }
    {
        match get_ask(alloc, file, token) {
            Ok(ask) => content_of(ask_once(alloc, &mut self.dial, self.host.get(), &ask)),
            Err(_) => Err(StoreFault::Memory),
        }
    }

    /// Locks the file, in one talk.
    pub fn lock(&mut self, alloc: Global, file: &FileId, token: &Token) -> Result<(), StoreFault>
        ensures asked { AskedOnce (host_of self.old) (Ask.Lock file.now token.now) (D.told (dial_of self.old)) (D.told (dial_of self.new)) (done_told result) }
        ensures host { host_of self.new ≡ host_of self.old }
        ensures away { D.away (dial_of self.new) ≡ D.away (dial_of self.old) }
        ensures cause { HasCause (D.faults (dial_of self.old)) (D.faults (dial_of self.new)) (store_failed result ≡ true) }
    {
        match lock_ask(alloc, file, token) {
            Ok(ask) => done_of(ask_once(alloc, &mut self.dial, self.host.get(), &ask)),
            Err(_) => Err(StoreFault::Memory),
        }
    }

    /// Gives the lock a later end, in one talk.
    pub fn refresh_lock(
        &mut self,
        alloc: Global,
        file: &FileId,
        token: &Token,
    ) -> Result<(), StoreFault>
        ensures asked { AskedOnce (host_of self.old) (Ask.Refresh file.now token.now) (D.told (dial_of self.old)) (D.told (dial_of self.new)) (done_told result) }
        ensures host { host_of self.new ≡ host_of self.old }
        ensures away { D.away (dial_of self.new) ≡ D.away (dial_of self.old) }
        ensures cause { HasCause (D.faults (dial_of self.old)) (D.faults (dial_of self.new)) (store_failed result ≡ true) }
    {
        match refresh_ask(alloc, file, token) {
            Ok(ask) => done_of(ask_once(alloc, &mut self.dial, self.host.get(), &ask)),
            Err(_) => Err(StoreFault::Memory),
        }
    }

    /// Takes the lock away, in one talk.
    pub fn unlock(&mut self, alloc: Global, file: &FileId, token: &Token) -> Result<(), StoreFault>
        ensures asked { AskedOnce (host_of self.old) (Ask.Unlock file.now token.now) (D.told (dial_of self.old)) (D.told (dial_of self.new)) (done_told result) }
        ensures host { host_of self.new ≡ host_of self.old }
        ensures away { D.away (dial_of self.new) ≡ D.away (dial_of self.old) }
        ensures cause { HasCause (D.faults (dial_of self.old)) (D.faults (dial_of self.new)) (store_failed result ≡ true) }
    {
        match unlock_ask(alloc, file, token) {
            Ok(ask) => done_of(ask_once(alloc, &mut self.dial, self.host.get(), &ask)),
            Err(_) => Err(StoreFault::Memory),
        }
    }

    /// Puts the content, in one talk. A receipt comes only where the host answered 200 to the request
    /// that carried exactly this content.
    pub fn put_file(&mut self, alloc: Global, errand: &Errand) -> Result<Receipt, StoreFault>
        ensures asked { AskedOnce (host_of self.old) (Ask.Put errand.now.file errand.now.token errand.now.content) (D.told (dial_of self.old)) (D.told (dial_of self.new)) (done_told result) }
        ensures receipt { IfOk result (IsReceiptOf errand.now) }
        ensures host { host_of self.new ≡ host_of self.old }
        ensures away { D.away (dial_of self.new) ≡ D.away (dial_of self.old) }
        ensures cause { HasCause (D.faults (dial_of self.old)) (D.faults (dial_of self.new)) (store_failed result ≡ true) }
    {
        let Ok(receipt) = receipt_of(errand) else {
            return Err(StoreFault::Memory);
        };
        match put_ask(alloc, errand) {
            Ok(ask) => receipt_for(
                ask_once(alloc, &mut self.dial, self.host.get(), &ask),
                receipt,
            ),
            Err(_) => Err(StoreFault::Memory),
        }
    }
}

impl<D: Dial> WopiStore<D> {
    ghost use Rattle.std.specs.Prelude.{◌≡◌, IfOk, true};
    ghost use Rattle.outside.specs.Causes.{HasCause};
    ghost use Rattle.outside.specs.Stores.{store_failed, IsReceiptOf};
    ghost use Rattle.wopi_client.specs.Stores.{content_told, done_told, AskedTwice, PutsBy};
    ghost use Rattle.wopi_client.specs.Kept.{dial_of, host_of};

    // The content of the file, which is locked first.
    fn lock_and_get(
        &mut self,
        alloc: Global,
        file: &FileId,
        token: &Token,
    ) -> Result<Bytes, StoreFault>
        ensures asked { AskedTwice (host_of self.old) (Ask.Lock file.now token.now) (Ask.Get file.now token.now) (D.told (dial_of self.old)) (D.told (dial_of self.new)) (content_told result) }
        ensures host { host_of self.new ≡ host_of self.old }
        ensures away { D.away (dial_of self.new) ≡ D.away (dial_of self.old) }
        ensures cause { HasCause (D.faults (dial_of self.old)) (D.faults (dial_of self.new)) (store_failed result ≡ true) }
    {
        match self.lock(alloc, file, token) {
            Ok(_) => self.get_file(alloc, file, token),
            Err(fault) => Err(fault),
        }
    }

    // Puts the content, behind a lock of the file.
    fn lock_and_put(&mut self, alloc: Global, errand: &Errand) -> Result<Receipt, StoreFault>
        ensures asked { PutsBy (host_of self.old) errand.now (D.told (dial_of self.old)) (D.told (dial_of self.new)) (done_told result) }
        ensures receipt { IfOk result (IsReceiptOf errand.now) }
        ensures host { host_of self.new ≡ host_of self.old }
        ensures away { D.away (dial_of self.new) ≡ D.away (dial_of self.old) }
        ensures cause { HasCause (D.faults (dial_of self.old)) (D.faults (dial_of self.new)) (store_failed result ≡ true) }
    {
        match self.lock(alloc, &errand.file, &errand.token) {
            Ok(_) => self.put_file(alloc, errand),
            Err(fault) => Err(fault),
        }
    }
}

impl<D: Dial> Store for WopiStore<D> {
    ghost use Rattle.std.specs.Prelude.{◌≡◌, IfOk, true, None, Option, List};
    ghost use Rattle.outside.specs.Causes.{HasCause};
    ghost use Rattle.outside.specs.Stores.{StoreCall, Admits, Fetches, Puts, Refreshes, Unlocks, Tells, store_failed, IsReceiptOf};
    ghost use Rattle.wopi_client.specs.Talks.{AskedOnce};
    ghost use Rattle.wopi_client.specs.Stores.{info_told, content_told, done_told, FetchesBy, PutsBy};
    ghost use Rattle.wopi_client.specs.Kept.{dial_of, host_of};

    ghost calls = { λ _. None };

    ghost faults = { λ store. D.faults (dial_of store) };

    fn admit(
        &mut self,
        alloc: Global,
        file: &FileId,
        token: &Token,
    ) -> Result<Admission, StoreFault>
        ensures told { Tells None (StoreCall.Admits file.now token.now result) result None }
        ensures cause { HasCause (D.faults (dial_of self.old)) (D.faults (dial_of self.new)) (store_failed result ≡ true) }

        // It checks the file.
        ensures asked { AskedOnce (host_of self.old) (Ask.Check file.now token.now) (D.told (dial_of self.old)) (D.told (dial_of self.new)) (info_told result) }
        ensures host { host_of self.new ≡ host_of self.old }
        ensures away { D.away (dial_of self.new) ≡ D.away (dial_of self.old) }
    {
        self.check_file_info(alloc, file, token)
    }

    fn fetch(
        &mut self,
        alloc: Global,
        file: &FileId,
        token: &Token,
        write: bool,
    ) -> Result<Bytes, StoreFault>
        ensures told { Tells None (StoreCall.Fetches file.now token.now write result) result None }
        ensures cause { HasCause (D.faults (dial_of self.old)) (D.faults (dial_of self.new)) (store_failed result ≡ true) }

        // It locks the file where it is to be written, and gets it.
        ensures asked { FetchesBy (host_of self.old) file.now token.now write (D.told (dial_of self.old)) (D.told (dial_of self.new)) (content_told result) }
        ensures host { host_of self.new ≡ host_of self.old }
        ensures away { D.away (dial_of self.new) ≡ D.away (dial_of self.old) }
    {
        if write {
            self.lock_and_get(alloc, file, token)
        } else {
            self.get_file(alloc, file, token)
        }
    }

    fn put(&mut self, alloc: Global, errand: &Errand) -> Result<Receipt, StoreFault>
        ensures told { Tells None (StoreCall.Puts errand.now result) result None }
        ensures receipt { IfOk result (IsReceiptOf errand.now) }
        ensures cause { HasCause (D.faults (dial_of self.old)) (D.faults (dial_of self.new)) (store_failed result ≡ true) }

        // It locks the file and puts the content.
        ensures asked { PutsBy (host_of self.old) errand.now (D.told (dial_of self.old)) (D.told (dial_of self.new)) (done_told result) }
        ensures host { host_of self.new ≡ host_of self.old }
        ensures away { D.away (dial_of self.new) ≡ D.away (dial_of self.old) }
    {
        self.lock_and_put(alloc, errand)
    }

    fn refresh(&mut self, alloc: Global, file: &FileId, token: &Token) -> Result<(), StoreFault>
        ensures told { Tells None (StoreCall.Refreshes file.now token.now result) result None }
        ensures cause { HasCause (D.faults (dial_of self.old)) (D.faults (dial_of self.new)) (store_failed result ≡ true) }

        // It refreshes the lock.
        ensures asked { AskedOnce (host_of self.old) (Ask.Refresh file.now token.now) (D.told (dial_of self.old)) (D.told (dial_of self.new)) (done_told result) }
        ensures host { host_of self.new ≡ host_of self.old }
        ensures away { D.away (dial_of self.new) ≡ D.away (dial_of self.old) }
    {
        self.refresh_lock(alloc, file, token)
    }

    fn unlock(&mut self, alloc: Global, file: &FileId, token: &Token) -> Result<(), StoreFault>
        ensures told { Tells None (StoreCall.Unlocks file.now token.now result) result None }
        ensures cause { HasCause (D.faults (dial_of self.old)) (D.faults (dial_of self.new)) (store_failed result ≡ true) }

        // It takes the lock away.
        ensures asked { AskedOnce (host_of self.old) (Ask.Unlock file.now token.now) (D.told (dial_of self.old)) (D.told (dial_of self.new)) (done_told result) }
        ensures host { host_of self.new ≡ host_of self.old }
        ensures away { D.away (dial_of self.new) ≡ D.away (dial_of self.old) }
    {
        self.unlock(alloc, file, token)
    }
}
