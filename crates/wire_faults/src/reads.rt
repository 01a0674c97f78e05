// What is read of a wire that fails, with ample memory.
use crate::failing::{CHUNKED, FailingWire, PUT};
use http_wire::{HttpFault, read_request, read_response};
use outside::{MemoryWire, WireFault};
use std::alloc::Global;
use std::test::Fail;

// How many bytes the wire must give at least before it fails, so that no read fault is answered.
fn request_needs(alloc: Global) -> usize {
    for good in 0..PUT.len() {
        let mut wire = FailingWire::new(PUT, good);
        if read_request(alloc, &mut wire).err() != Some(HttpFault::Wire(WireFault::ReadFault)) {
            return good;
        }
    }
    PUT.len()
}

// The same of the response.
fn response_needs(alloc: Global) -> usize {
    for good in 0..CHUNKED.len() {
        let mut wire = FailingWire::new(CHUNKED, good);
        if read_response(alloc, &mut wire).err() != Some(HttpFault::Wire(WireFault::ReadFault)) {
            return good;
        }
    }
    CHUNKED.len()
}

#[test]
fn a_message_fails_where_the_wire_does(rt: HostRuntime) -> Result<(), Fail> {
    let alloc = rt.alloc();
    assert_eq!(rt; request_needs(alloc), PUT.len());
    assert_eq!(rt; response_needs(alloc), CHUNKED.len());
    Ok(())
}

#[test]
fn nothing_is_asked_for_after_a_message(rt: HostRuntime) -> Result<(), Fail> {
    let alloc = rt.alloc();
    let mut wire = FailingWire::new(PUT, PUT.len());
    assert!(rt; read_request(alloc, &mut wire).is_ok());
    assert_eq!(rt; wire.faults, 0);
    let mut wire = FailingWire::new(CHUNKED, CHUNKED.len());
    assert!(rt; read_response(alloc, &mut wire).is_ok());
    assert_eq!(rt; wire.faults, 0);
    for pace in 0..PUT.len() {
        let mut wire = MemoryWire::new(alloc, PUT, pace + 1, 0)?;
        assert!(rt; read_request(alloc, &mut wire).is_ok());
        assert!(rt; !wire.ended());
    }
    Ok(())
}

// Whether the last byte is told to begin no head of a request before more comes: a wire that fails
// after it gives a bad head, and one that fails at an earlier byte its fault.
fn is_bad_request(alloc: Global, bytes: &'static [u8]) -> bool {
    for good in 0..bytes.len() {
        let mut wire = FailingWire::new(bytes, good);
        if read_request(alloc, &mut wire).err() != Some(HttpFault::Wire(WireFault::ReadFault)) {
            return false;
        }
    }
    let mut wire = FailingWire::new(bytes, bytes.len());
    read_request(alloc, &mut wire).err() == Some(HttpFault::Wire(WireFault::BadHead))
        && wire.faults == 0
}

// The same of a response.
fn is_bad_response(alloc: Global, bytes: &'static [u8]) -> bool {
    for good in 0..bytes.len() {
        let mut wire = FailingWire::new(bytes, good);
        if read_response(alloc, &mut wire).err() != Some(HttpFault::Wire(WireFault::ReadFault)) {
            return false;
        }
    }
    let mut wire = FailingWire::new(bytes, bytes.len());
    read_response(alloc, &mut wire).err() == Some(HttpFault::Wire(WireFault::BadHead))
        && wire.faults == 0
}

#[test]
fn a_bad_byte_of_a_request_is_told_at_once(rt: HostRuntime) -> Result<(), Fail> {
    let alloc = rt.alloc();
    assert!(rt; is_bad_request(alloc, b"\r\n\rG"));
    assert!(rt; is_bad_request(alloc, b"G\x00"));
    assert!(rt; is_bad_request(alloc, b"GET  "));
    assert!(rt; is_bad_request(alloc, b"GET /a\xff"));
    assert!(rt; is_bad_request(alloc, b"GET /a HTTX"));
    assert!(rt; is_bad_request(alloc, b"GET /a HTTP/1.2"));
    assert!(rt; is_bad_request(alloc, b"GET /a HTTP/1.1 "));
    assert!(rt; is_bad_request(alloc, b"GET /a HTTP/1.1\r\nHost "));
    assert!(rt; is_bad_request(alloc, b"GET /a HTTP/1.1\r\nHost: a\x00"));
    assert!(rt; is_bad_request(alloc, b"GET /a HTTP/1.1\r\nHost: a\rb"));
    assert!(rt; is_bad_request(alloc, b"GET /a HTTP/1.1\r\nHost: a\r\n "));
    assert!(rt; is_bad_request(alloc, b"GET /a HTTP/1.1\r\nHost: a\r\n\rb"));
    Ok(())
}

#[test]
fn a_bad_byte_of_a_response_is_told_at_once(rt: HostRuntime) -> Result<(), Fail> {
    let alloc = rt.alloc();
    assert!(rt; is_bad_response(alloc, b"\nG"));
    assert!(rt; is_bad_response(alloc, b"HTTP/2"));
    assert!(rt; is_bad_response(alloc, b"HTTP/1.1 20x"));
    assert!(rt; is_bad_response(alloc, b"HTTP/1.1 2000"));
    assert!(rt; is_bad_response(alloc, b"HTTP/1.1 200 O\x00"));
    assert!(rt; is_bad_response(alloc, b"HTTP/1.1 200\r\nA "));
    assert!(rt; is_bad_response(alloc, b"HTTP/1.1 200\r\nA: b\x7f"));
    assert!(rt; is_bad_response(alloc, b"HTTP/1.1 200 OK\nA: b\n\r\r"));
    Ok(())
}
