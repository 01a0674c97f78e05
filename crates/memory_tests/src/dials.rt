// A dial in memory, with ample memory.
use outside::{ReadStep, Wire, WriteStep};
use std::test::Fail;
use wopi_dial::{Dial, DialFault, MemoryDial};

#[test]
fn talks_are_told(rt: HostRuntime) -> Result<(), Fail> {
    let alloc = rt.alloc();
    let mut dial = MemoryDial::new(alloc, 8, 2);
    dial.add(alloc, b"yes")?;
    let mut wire = dial.dial(alloc)?;
    let mut room = [0u8; 8];
    assert_eq!(rt; wire.send(b"hi"), WriteStep::Wrote(2));
    assert_eq!(rt; wire.receive(&mut room), ReadStep::Read(3));
    assert_eq!(rt; wire.send(b"!"), WriteStep::Failed);
    dial.hang(wire);
    assert_eq!(rt; dial.faults(), 1);
    assert_eq!(rt; dial.dial(alloc).err(), Some(DialFault::Failed));
    assert_eq!(rt; dial.faults(), 2);
    match dial.hung() {
        [talk] => {
            assert_eq!(rt; talk.sent(), b"hi".as_slice());
            assert_eq!(rt; talk.received(), b"yes".as_slice());
        }
        _ => assert!(rt; false),
    }
    Ok(())
}
