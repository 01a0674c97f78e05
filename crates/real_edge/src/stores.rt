// The stores of the edge.
use bytes::Bytes;
use cool_base::{FileId, Memory, Token};
use outside::{Admission, Errand, Receipt, Store, StoreFault};
use std::alloc::Global;
use std::net::{Net, TcpStream};
use std::rt::Clock;
use tcp_dial::TcpDial;
use wopi_client::WopiStore;

/// A store over a WOPI host behind sockets. It tells no calls.
#[derive(Drop)]
pub struct TcpStore<'a, R>
where
    R: Net<Stream = TcpStream> + Clock,
{
    store: WopiStore<TcpDial<'a, R>>,
}

impl<'a, R> TcpStore<'a, R>
where
    R: Net<Stream = TcpStream> + Clock,
{
    /// A store over the host at this address. Nothing is dialled.
    pub fn new(rt: &'a R, alloc: Global, host: &str) -> Result<TcpStore<'a, R>, Memory> {
        let dial = TcpDial::new(rt, alloc, host)?;
        Ok(TcpStore {
            store: WopiStore::new(alloc, dial, host)?,
        })
    }
}

impl<'a, R> Store for TcpStore<'a, R>
where
    R: Net<Stream = TcpStream> + Clock,
{
    ghost use Rattle.std.specs.Prelude.{None};
    ghost use Rattle.wopi_client.specs.Kept.{dial_of};

    ghost calls = { λ _. None };

    ghost faults = { λ s. (dial_of s.store).faults };

    fn admit(
        &mut self,
        alloc: Global,
        file: &FileId,
        token: &Token,
    ) -> Result<Admission, StoreFault> {
        self.store.admit(alloc, file, token)
    }

    fn fetch(
        &mut self,
        alloc: Global,
        file: &FileId,
        token: &Token,
        write: bool,
    ) -> Result<Bytes, StoreFault> {
        self.store.fetch(alloc, file, token, write)
    }

    fn put(&mut self, alloc: Global, errand: &Errand) -> Result<Receipt, StoreFault> {
        self.store.put(alloc, errand)
    }

    fn refresh(&mut self, alloc: Global, file: &FileId, token: &Token) -> Result<(), StoreFault> {
        self.store.refresh(alloc, file, token)
    }

    fn unlock(&mut self, alloc: Global, file: &FileId, token: &Token) -> Result<(), StoreFault> {
        self.store.unlock(alloc, file, token)
    }
}
