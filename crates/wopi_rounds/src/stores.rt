// The store over a dial in memory, with ample memory.
use bytes::Bytes;
use cool_base::{FileId, Memory, Ticket, Token};
use outside::{Errand, Store, StoreFault};
use std::alloc::Global;
use std::process::Abort;
use std::test::Fail;
use wopi_client::{MemoryDial, WopiStore};

const DONE: &[u8] = b"HTTP/1.1 200 OK\r\nContent-Length: 0\r\n\r\n";

const TAKEN: &[u8] = b"HTTP/1.1 409 No\r\nX-WOPI-Lock: x\r\nContent-Length: 0\r\n\r\n";

const CUT: &[u8] = b"HTTP/1.1 2";

const PUT: &[u8] =
    b"POST /wopi/files/d/contents?access_token=t-rw HTTP/1.1\r\nHost: h:9980\r\nConnection: close\r\nContent-Length: 3\r\nX-WOPI-Lock: cool-d\r\nX-WOPI-Override: PUT\r\n\r\nabc";

fn errand(rt: &impl Abort, alloc: Global) -> Result<Errand, Memory> {
    Ok(Errand {
        ticket: Ticket(1),
        file: FileId::read("d").expect(rt, "a file id"),
        token: Token::read(alloc, "t-rw")?.expect(rt, "a token"),
        content: Bytes::from_static(b"abc"),
        number: 7,
    })
}

fn store_over(alloc: Global, one: &[u8], two: &[u8]) -> Result<WopiStore<MemoryDial>, Memory> {
    let mut dial = MemoryDial::new(alloc, 5, 4_096);
    dial.add(alloc, one)?;
    dial.add(alloc, two)?;
    WopiStore::new(alloc, dial, "h:9980")
}

fn code<T: Drop>(answer: Result<T, StoreFault>) -> u16 {
    match answer {
        Ok(_) => 200,
        Err(fault) => fault.code(),
    }
}

// What was sent in the second talk; nothing where there was none.
fn second_sent(store: &WopiStore<MemoryDial>) -> &[u8] {
    match store.dial().hung() {
        [_, put] => put.sent(),
        _ => b"",
    }
}

// A put locks the file first, and a refusal ends it.
#[test]
fn a_put_locks_and_puts(rt: HostRuntime) -> Result<(), Fail> {
    let alloc = rt.alloc();
    let errand = errand(&rt, alloc)?;
    for (one, two, told, put) in [
        (DONE, DONE, 200u16, PUT),
        (DONE, TAKEN, 409, PUT),
        (DONE, CUT, 1000, PUT),
        (TAKEN, DONE, 409, b"".as_slice()),
        (CUT, DONE, 1000, b"".as_slice()),
    ] {
        let mut store = store_over(alloc, one, two)?;
        assert_eq!(rt; code(store.put(alloc, &errand)), told);
        assert_eq!(rt; second_sent(&store), put);
    }
    Ok(())
}
