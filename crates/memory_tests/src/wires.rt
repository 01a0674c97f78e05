// Wires in memory and the codes of faults, with ample memory.
use cool_base::TextOf;
use outside::{MemoryWire, ReadStep, StoreFault, Wire, WireFault, WriteStep};
use std::test::Fail;

#[test]
fn a_wire_gives_its_bytes_in_pieces(rt: HostRuntime) -> Result<(), Fail> {
    let mut wire = MemoryWire::new(rt.alloc(), b"abcde", 2, 4)?;
    let mut room = [0u8; 8];
    assert_eq!(rt; wire.receive(&mut room), ReadStep::Read(2));
    assert_eq!(rt; &room[..2], b"ab".as_slice());
    assert_eq!(rt; wire.send(b"xyz"), WriteStep::Wrote(3));
    assert_eq!(rt; wire.send(b"xy"), WriteStep::Failed);
    assert_eq!(rt; wire.faults(), 1);
    assert_eq!(rt; wire.receive(&mut room), ReadStep::Read(2));
    assert_eq!(rt; wire.receive(&mut room), ReadStep::Read(1));
    assert!(rt; !wire.ended());
    assert_eq!(rt; wire.receive(&mut room), ReadStep::End);
    assert!(rt; wire.ended());
    assert_eq!(rt; wire.sent(), b"xyz".as_slice());
    assert_eq!(rt; wire.received(), b"abcde".as_slice());
    Ok(())
}

#[test]
fn faults_have_codes(rt: HostRuntime) -> Result<(), Fail> {
    let id = TextOf::of(String::from_str(rt.alloc(), "x")?);
    assert_eq!(rt; StoreFault::Conflict(id).code(), 409);
    assert_eq!(rt; StoreFault::Denied.code(), 401);
    assert_eq!(rt; StoreFault::Missing.code(), 404);
    assert_eq!(rt; StoreFault::BadAnswer(503).code(), 503);
    assert_eq!(rt; StoreFault::Wire(WireFault::CutOff).code(), 1000);
    assert_eq!(rt; StoreFault::BadJson.code(), 1001);
    assert_eq!(rt; StoreFault::Memory.code(), 1002);
    Ok(())
}
