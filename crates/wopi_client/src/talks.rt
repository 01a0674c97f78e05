//! One talk: a request over a wire, and the answer.
ghost use Rattle.std.specs.Prelude.{◌≡◌, Err, true};
ghost use Rattle.outside.specs.Causes.{HasCause};
ghost use Rattle.outside.specs.Stores.{store_failed};
ghost use Rattle.http_write.specs.Texts.{request_bytes};
ghost use Rattle.http_write.specs.Writes.{Writes};
ghost use Rattle.wopi_client.specs.Asks.{request_for};
ghost use Rattle.wopi_client.specs.Talks.{store_fault, HearsOver, TalksOver, AskedOnce};

use crate::asks::{Ask, Told, request_of, understand};
use http_wire::read_response;
use http_write::write_request;
use outside::{StoreFault, Wire, WireFault};
use std::alloc::Global;
use wire_body::HttpFault;
use wopi_dial::{Dial, DialFault};

fn store_fault(fault: HttpFault) -> StoreFault
    ensures { result ≡ store_fault fault }
{
    match fault {
        HttpFault::Wire(fault) => StoreFault::Wire(fault),
        HttpFault::Memory => StoreFault::Memory,
    }
}

// Sends the request that asks it.
fn send_ask<W: Wire>(alloc: Global, wire: &mut W, host: &str, ask: &Ask) -> Result<(), HttpFault>
    ensures writes { Writes (W.talk wire.old) (request_bytes host.now (request_for ask.now)) result (W.talk wire.new) }
    ensures cause { HasCause (W.faults wire.old) (W.faults wire.new) (result ≡ Err (HttpFault.Wire WireFault.WriteFault)) }
{
    match request_of(alloc, ask) {
        Ok(request) => write_request(alloc, wire, host, &request),
        Err(_) => Err(HttpFault::Memory),
    }
}

// Hears the answer.
fn hear<W: Wire>(alloc: Global, wire: &mut W, ask: &Ask) -> Result<Told, StoreFault>
    ensures heard { HearsOver ask.now (W.talk wire.old) (W.talk wire.new) result }
    ensures cause { HasCause (W.faults wire.old) (W.faults wire.new) (store_failed result ≡ true) }
{
    match read_response(alloc, wire) {
        Ok(response) => understand(alloc, ask, &response),
        Err(fault) => Err(store_fault(fault)),
    }
}

// Asks and hears.
fn talk<W: Wire>(alloc: Global, wire: &mut W, host: &str, ask: &Ask) -> Result<Told, StoreFault>
    ensures talks { TalksOver host.now ask.now (W.talk wire.old) (W.talk wire.new) result }
    ensures cause { HasCause (W.faults wire.old) (W.faults wire.new) (store_failed result ≡ true) }
{
    match send_ask(alloc, wire, host, ask) {
        Ok(_) => hear(alloc, wire, ask),
        Err(fault) => Err(store_fault(fault)),
    }
}

// Dials, talks and hangs up. Where no wire is had, that counts as a failed read.
pub(crate) fn ask_once<D: Dial>(
    alloc: Global,
    dial: &mut D,
    host: &str,
    ask: &Ask,
) -> Result<Told, StoreFault>
    ensures asked { AskedOnce host.now ask.now (D.told dial.old) (D.told dial.new) result }
    ensures away { D.away dial.new ≡ D.away dial.old }
    ensures cause { HasCause (D.faults dial.old) (D.faults dial.new) (store_failed result ≡ true) }
{
    match dial.dial(alloc) {
        Ok(wire) => {
            let mut wire = wire;
            let answer = talk(alloc, &mut wire, host, ask);
            dial.hang(wire);
            answer
        }
        Err(DialFault::Failed) => Err(StoreFault::Wire(WireFault::ReadFault)),
        Err(DialFault::Memory) => Err(StoreFault::Memory),
    }
}
