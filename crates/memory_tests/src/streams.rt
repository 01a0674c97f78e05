// Sources and sinks in memory, with ample memory.
use outside::{MemorySink, MemorySource, ReadStep, Sink, Source, WriteStep};
use std::test::Fail;

#[test]
fn a_source_gives_its_bytes_in_order(rt: HostRuntime) -> Result<(), Fail> {
    let mut source = MemorySource::new(b"abcde");
    let mut room = [0u8; 3];
    assert_eq!(rt; source.read(&mut room), ReadStep::Read(3));
    assert_eq!(rt; room.as_slice(), b"abc".as_slice());
    assert_eq!(rt; source.rest(), b"de".as_slice());
    assert_eq!(rt; source.read(&mut room), ReadStep::Read(2));
    assert_eq!(rt; &room[..2], b"de".as_slice());
    assert_eq!(rt; source.read(&mut room), ReadStep::End);
    Ok(())
}

#[test]
fn a_sink_takes_what_fits(rt: HostRuntime) -> Result<(), Fail> {
    let mut sink = MemorySink::new(rt.alloc(), 5)?;
    assert_eq!(rt; sink.write(b"abc"), WriteStep::Wrote(3));
    assert_eq!(rt; sink.write(b"def"), WriteStep::Failed);
    assert_eq!(rt; sink.faults(), 1);
    assert_eq!(rt; sink.write(b"de"), WriteStep::Wrote(2));
    assert_eq!(rt; sink.write(b""), WriteStep::Wrote(0));
    assert_eq!(rt; sink.bytes(), b"abcde".as_slice());
    Ok(())
}
