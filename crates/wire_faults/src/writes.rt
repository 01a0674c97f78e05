// What is written on a wire that fails, with ample memory.
use crate::failing::{FailingWire, PUT};
use bytes::Bytes;
use cool_base::TextOf;
use http_message::{Method, Request};
use http_wire::HttpFault;
use http_write::write_request;
use outside::WireFault;
use std::alloc::{AllocError, Global};
use std::test::Fail;

fn put(alloc: Global) -> Result<Request, AllocError> {
    let target = "/wopi/files/d/contents?access_token=t-rw";
    Ok(Request {
        method: Method::Post,
        target: TextOf::of(String::from_str(alloc, target)?),
        lock: Some(TextOf::of(String::from_str(alloc, "cool-d")?)),
        over: Some(TextOf::of(String::from_str(alloc, "PUT")?)),
        old_lock: false,
        body: Bytes::from_static(b"abc"),
    })
}

#[test]
fn a_request_is_sent_up_to_where_the_wire_fails(rt: HostRuntime) -> Result<(), Fail> {
    let alloc = rt.alloc();
    let request = put(alloc)?;
    for good in 0..PUT.len() {
        let mut wire = FailingWire::new(PUT, good);
        let fault = write_request(alloc, &mut wire, "h", &request).err();
        assert_eq!(rt; fault, Some(HttpFault::Wire(WireFault::WriteFault)));
        assert_eq!(rt; wire.passed, good);
        assert_eq!(rt; wire.faults, 1);
    }
    let mut wire = FailingWire::new(PUT, PUT.len());
    assert!(rt; write_request(alloc, &mut wire, "h", &request).is_ok());
    assert_eq!(rt; wire.passed, PUT.len());
    Ok(())
}
