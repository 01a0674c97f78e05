// What `host_serve` does over an edge in memory, with ample memory.
use crate::edges::MemoryEdge;
use bytes::Bytes;
use cool_base::FileId;
use cool_server::host_serve;
use std::alloc::{AllocError, Global};
use std::process::Abort;
use std::sync::Wait;
use std::test::Fail;
use wopi_host::{Keeper, MemoryKeeper};

// An edge whose keeper has the file `d` without bytes.
fn edge_over(rt: &impl Abort, alloc: Global) -> MemoryEdge {
    let mut keeper = MemoryKeeper::new(alloc);
    let file = FileId::read("d").expect(rt, "a file id");
    assert!(rt; keeper.keep(alloc, &file, &Bytes::new()).is_ok());
    MemoryEdge::new(keeper, 10)
}

fn words(alloc: Global, requests: &str) -> Result<Vec<String>, AllocError> {
    let mut words = Vec::new(alloc);
    for word in [
        "host",
        "--port",
        "0",
        "--folder",
        "f",
        "--requests",
        requests,
    ] {
        words.push(String::from_str(alloc, word)?)?;
    }
    Ok(words)
}

// The status after one wire that gives these bytes.
fn served<R: Wait>(
    rt: &R,
    alloc: Global,
    edge: &mut MemoryEdge,
    bytes: &'static [u8],
) -> Result<u8, AllocError> {
    edge.incoming = Some(Bytes::from_static(bytes));
    Ok(host_serve(rt, alloc, &words(alloc, "1")?, edge))
}

const PUT: &[u8] =
    b"POST /wopi/files/d/contents?access_token=t-rw HTTP/1.1\r\nX-WOPI-Override: PUT\r\nContent-Length: 3\r\n\r\nabc";

const GET: &[u8] = b"GET /wopi/files/d/contents?access_token=t-ro HTTP/1.0\r\n\r\n";

// Each row is what a wire gives, how the host's bytes begin, and how many keeps the keeper has accepted
// then; the first of them made the file. Locks and counts of puts are gone at each start.
#[test]
fn each_wire_gets_its_answer(rt: HostRuntime) -> Result<(), Fail> {
    let alloc = rt.alloc();
    let mut edge = edge_over(&rt, alloc);
    for (bytes, begins, accepted) in [
        (GET, b"HTTP/1.1 200 ".as_slice(), 1u64),
        (b"nonsense\r\n\r\n".as_slice(), b"".as_slice(), 1),
        (&PUT[..PUT.len() - 1], b"".as_slice(), 1),
        (PUT, b"HTTP/1.1 200 ".as_slice(), 2),
        (PUT, b"HTTP/1.1 409 ".as_slice(), 2),
        (GET, b"HTTP/1.1 200 ".as_slice(), 2),
    ] {
        assert_eq!(rt; served(&rt, alloc, &mut edge, bytes)?, 0);
        let last = edge.last.take().expect(&rt, "a closed wire");
        assert!(rt; last.sent().starts_with(begins));
        assert_eq!(rt; last.sent().is_empty(), begins.is_empty());
        let keeper = edge.keeper.take().expect(&rt, "the keeper");
        assert_eq!(rt; keeper.accepted(), accepted);
        edge.keeper = Some(keeper);
    }
    Ok(())
}

// The statuses: words that are refused, an edge without a wire, and one without a keeper.
#[test]
fn each_status_has_its_cause(rt: HostRuntime) -> Result<(), Fail> {
    let alloc = rt.alloc();
    let mut edge = edge_over(&rt, alloc);
    assert_eq!(rt; host_serve(&rt, alloc, &words(alloc, "x")?, &mut edge), 2);
    assert!(rt; edge.keeper.is_some());
    assert_eq!(rt; host_serve(&rt, alloc, &words(alloc, "1")?, &mut edge), 8);
    assert!(rt; edge.keeper.is_some());
    edge.keeper = None;
    assert_eq!(rt; served(&rt, alloc, &mut edge, GET)?, 8);
    Ok(())
}
