// Puts of a store over sockets, against a host that says what it is told to.
use bytes::Bytes;
use cool_base::{FileId, Memory, Ticket, Token};
use http_wire::read_request;
use outside::{Errand, Store, Wire, WriteStep};
use std::alloc::Global;
use std::net::{TcpListener, TcpStream};
use std::process::Abort;
use std::rt::Clock;
use std::test::Fail;
use std::{net, thread};
use tcp_dial::TcpDial;
use tcp_wire::TcpWire;
use wopi_client::WopiStore;

const DONE: &[u8] = b"HTTP/1.1 200 OK\r\nContent-Length: 0\r\n\r\n";

const TAKEN: &[u8] = b"HTTP/1.1 409 No\r\nX-WOPI-Lock: x\r\nContent-Length: 0\r\n\r\n";

fn errand(rt: &impl Abort, alloc: Global) -> Result<Errand, Memory> {
    Ok(Errand {
        ticket: Ticket(1),
        file: FileId::read("d").expect(rt, "a file id"),
        token: Token::read(alloc, "t-rw")?.expect(rt, "a token"),
        content: Bytes::from_static(b"abc"),
        number: 7,
    })
}

// Gives each wire one of the answers, once its request is read, and hangs up. How many it gave.
fn answered(alloc: Global, listener: TcpListener, answers: [&[u8]; 2], wires: usize) -> u32 {
    let mut given: u32 = 0;
    for answer in answers.into_iter().take(wires) {
        let Ok((stream, _)) = listener.accept() else {
            return given;
        };
        let mut wire = TcpWire::of(stream);
        if read_request(alloc, &mut wire).is_err() {
            return given;
        }
        if answer.is_empty() || matches!(wire.send(answer), WriteStep::Wrote(_)) {
            given = given.saturating_add(1);
        }
    }
    given
}

// The code of a put at the host: 200 where it was done.
fn put<R>(rt: &R, alloc: Global, host: &str, errand: &Errand) -> Result<u16, Memory>
where
    R: net::Net<Stream = TcpStream> + Clock,
{
    let mut store = WopiStore::new(alloc, TcpDial::new(rt, alloc, host)?, host)?;
    Ok(match store.put(alloc, errand) {
        Ok(_) => 200,
        Err(fault) => fault.code(),
    })
}

#[test]
fn a_put_goes_over_two_wires(rt: HostRuntime) -> Result<(), Fail> {
    let alloc = rt.alloc();
    let errand = errand(&rt, alloc)?;
    for (answers, wires, code) in [
        ([DONE, DONE], 2, 200u16),
        ([DONE, TAKEN], 2, 409),
        ([TAKEN, DONE], 1, 409),
        ([b"".as_slice(), DONE], 1, 1000),
        ([DONE, b"".as_slice()], 2, 1000),
    ] {
        let listener = TcpListener::bind(&rt, ("127.0.0.1", 0)).expect(&rt, "a listener");
        let port = listener.local_addr().expect(&rt, "its address").port();
        let host = format!(in alloc; "127.0.0.1:{port}")?;
        let (given, told) = thread::join(
            &rt,
            || answered(alloc, listener, answers, wires),
            || put(&rt, alloc, host.as_str(), &errand),
        );
        assert_eq!(rt; (given, told?), (wires as u32, code));
    }
    Ok(())
}

#[test]
fn a_host_that_is_not_there_is_a_fault(rt: HostRuntime) -> Result<(), Fail> {
    let alloc = rt.alloc();
    let errand = errand(&rt, alloc)?;
    for host in ["127.0.0.1:1", "127.0.0.1", "127.0.0.1:port"] {
        assert_eq!(rt; put(&rt, alloc, host, &errand)?, 1000);
    }
    Ok(())
}
