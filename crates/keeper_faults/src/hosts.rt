// What a host answers whose keeper fails, with ample memory.
use crate::failing::FailingKeeper;
use bytes::Bytes;
use cool_base::{FileId, TextOf};
use http_message::{Method, Request};
use std::alloc::{AllocError, Global};
use std::process::Abort;
use std::test::Fail;
use wopi_host::{Host, Keeper, MemoryKeeper};

fn request(alloc: Global, method: Method, over: Option<&str>) -> Result<Request, AllocError> {
    let target = "/wopi/files/d/contents?access_token=t-rw";
    let over = match over {
        None => None,
        Some(over) => Some(TextOf::of(String::from_str(alloc, over)?)),
    };
    Ok(Request {
        method,
        target: TextOf::of(String::from_str(alloc, target)?),
        lock: Some(TextOf::of(String::from_str(alloc, "x")?)),
        over,
        old_lock: false,
        body: Bytes::from_static(b"abc"),
    })
}

// A host whose keeper has an empty file `d` and fails at one of its calls.
fn host_over(rt: &impl Abort, alloc: Global, fails_at: u64) -> Result<Host<FailingKeeper>, Fail> {
    let mut inner = MemoryKeeper::new(alloc);
    let file = FileId::read("d").expect(rt, "a file id");
    assert!(rt; inner.keep(alloc, &file, &Bytes::new()).is_ok());
    let keeper = FailingKeeper {
        inner,
        calls: 0,
        accepted: 0,
        fails_at,
        faults: 0,
    };
    Ok(Host::new(alloc, keeper)?)
}

// Each row is the call that fails, what a put and a get after it are answered, how many calls of
// the keeper they made, and how many bytes it has then: a put asks for the file and keeps it, a get
// asks for it. The keeper accepted one keep exactly where the put was answered 200.
#[test]
fn the_answer_is_500_where_the_keeper_fails(rt: HostRuntime) -> Result<(), Fail> {
    let alloc = rt.alloc();
    let put = request(alloc, Method::Post, Some("PUT"))?;
    let get = request(alloc, Method::Get, None)?;
    let file = FileId::read("d").expect(&rt, "a file id");
    for (fails_at, first, second, calls, kept) in [
        (1u64, 500u16, 200u16, 2u64, 0usize),
        (2, 500, 200, 3, 0),
        (3, 200, 500, 3, 3),
        (4, 200, 200, 3, 3),
    ] {
        let mut host = host_over(&rt, alloc, fails_at)?;
        let answer = host.answer(&put, 10)?;
        assert_eq!(rt; answer.status, first);
        assert!(rt; answer.lock.is_none() && answer.body.is_empty());
        let answer = host.answer(&get, 10)?;
        assert_eq!(rt; answer.status, second);
        assert_eq!(rt; answer.body.len(), if second == 500 { 0 } else { kept });
        let keeper = host.into_keeper();
        assert_eq!(rt; keeper.calls, calls);
        assert_eq!(rt; keeper.accepted, if first == 200 { 1 } else { 0 });
        let content = keeper.inner.content(&file).expect(&rt, "a file");
        assert_eq!(rt; content.len(), kept);
    }
    Ok(())
}

// A put that failed is not counted as one, and is done when it is asked again.
#[test]
fn a_put_is_asked_again_after_a_fault(rt: HostRuntime) -> Result<(), Fail> {
    let alloc = rt.alloc();
    let put = request(alloc, Method::Post, Some("PUT"))?;
    let mut host = host_over(&rt, alloc, 2)?;
    for status in [500u16, 200, 409] {
        assert_eq!(rt; host.answer(&put, 10)?.status, status);
    }
    Ok(())
}
