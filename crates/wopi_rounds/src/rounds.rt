// The operations through writer, reader, host, writer and reader, with ample memory.
ghost use Rattle.http_message.specs.Statuses.{HasDueBody};

use bytes::Bytes;
use cool_base::{FileId, Memory, TextOf, Token};
use http_message::{Method, Request, Response};
use http_wire::{HttpFault, read_request, read_response};
use http_write::{write_request, write_response};
use outside::MemoryWire;
use std::alloc::Global;
use std::process::Abort;
use std::test::Fail;
use wopi_client::{Ask, Told, request_of, understand};
use wopi_host::{Host, MemoryKeeper};

// The request, written to one wire and read from another.
fn carried(alloc: Global, request: &Request) -> Result<Request, HttpFault> {
    let mut out = MemoryWire::new(alloc, b"", 1, 4_096)?;
    write_request(alloc, &mut out, "h", request)?;
    let mut back = MemoryWire::new(alloc, out.sent(), 7, 0)?;
    read_request(alloc, &mut back)
}

// The response, written to one wire and read from another.
fn answered(alloc: Global, response: &Response) -> Result<Response, HttpFault>
    requires { HasDueBody response.now }
{
    let mut out = MemoryWire::new(alloc, b"", 1, 4_096)?;
    write_response(alloc, &mut out, response)?;
    let mut back = MemoryWire::new(alloc, out.sent(), 7, 0)?;
    read_response(alloc, &mut back)
}

// What the client understands: the size of the file of a check, the length of a content, 200 of
// anything else that was done, or the code of the refusal.
fn understood(alloc: Global, ask: &Ask, response: &Response) -> u64 {
    match understand(alloc, ask, response) {
        Ok(Told::Info(info)) => info.size,
        Ok(Told::Content(content)) => content.len() as u64,
        Ok(Told::Done) => 200,
        Err(fault) => u64::from(fault.code()),
    }
}

// One round.
fn asked(alloc: Global, host: &mut Host<MemoryKeeper>, ask: &Ask) -> Result<u64, HttpFault> {
    let request = carried(alloc, &request_of(alloc, ask)?)?;
    let response = host.answer(&request, 10)?;
    let response = answered(alloc, &response)?;
    Ok(understood(alloc, ask, &response))
}

#[derive(Clone, Copy)]
enum Step {
    Check,
    Get,
    Lock,
    Refresh,
    Unlock,
    Put,
}

// What a step asks of the file `d`. A put is of five bytes.
fn ask_of(rt: &impl Abort, alloc: Global, step: Step) -> Result<Ask, Memory> {
    let file = FileId::read("d").expect(rt, "a file id");
    let token = Token::read(alloc, "t-rw")?.expect(rt, "a token");
    Ok(match step {
        Step::Check => Ask::Check { file, token },
        Step::Get => Ask::Get { file, token },
        Step::Lock => Ask::Lock { file, token },
        Step::Refresh => Ask::Refresh { file, token },
        Step::Unlock => Ask::Unlock { file, token },
        Step::Put => Ask::Put {
            file,
            token,
            content: Bytes::from_static(b"hello"),
        },
    })
}

#[test]
fn each_operation_goes_both_ways(rt: HostRuntime) -> Result<(), Fail> {
    let alloc = rt.alloc();
    let mut host = Host::new(alloc, MemoryKeeper::new(alloc))?;
    let file = FileId::read("d").expect(&rt, "a file id");
    host.add(&file, &Bytes::from_static(b"abc"))?;
    for (step, told) in [
        (Step::Check, 3u64),
        (Step::Get, 3),
        (Step::Put, 409),
        (Step::Refresh, 409),
        (Step::Lock, 200),
        (Step::Refresh, 200),
        (Step::Put, 200),
        (Step::Get, 5),
        (Step::Unlock, 200),
        (Step::Unlock, 409),
    ] {
        let ask = ask_of(&rt, alloc, step)?;
        assert_eq!(rt; asked(alloc, &mut host, &ask)?, told);
    }
    Ok(())
}

// The seventh operation, which the client never asks: what lock there is.
fn get_lock(alloc: Global) -> Result<Request, HttpFault> {
    let target = "/wopi/files/d?access_token=t-ro";
    Ok(Request {
        method: Method::Post,
        target: TextOf::of(String::from_str(alloc, target)?),
        lock: None,
        over: Some(TextOf::of(String::from_str(alloc, "GET_LOCK")?)),
        old_lock: false,
        body: Bytes::new(),
    })
}

#[test]
fn the_lock_is_told_both_ways(rt: HostRuntime) -> Result<(), Fail> {
    let alloc = rt.alloc();
    let mut host = Host::new(alloc, MemoryKeeper::new(alloc))?;
    let file = FileId::read("d").expect(&rt, "a file id");
    host.add(&file, &Bytes::from_static(b"abc"))?;
    for (step, told) in [
        (Step::Unlock, ""),
        (Step::Lock, "cool-d"),
        (Step::Unlock, ""),
    ] {
        let ask = ask_of(&rt, alloc, step)?;
        asked(alloc, &mut host, &ask)?;
        let request = carried(alloc, &get_lock(alloc)?)?;
        let response = answered(alloc, &host.answer(&request, 10)?)?;
        assert_eq!(rt; response.status, 200);
        let lock = response.lock.expect(&rt, "a lock line");
        assert_eq!(rt; lock.get(), told);
    }
    Ok(())
}
