// Sources and sinks that fail, with ample memory.
use cool_script::replay;
use outside::{MemorySink, MemorySource, ReadStep, Source};
use std::test::Fail;

const CLICK: &[u8] =
    b"open 1 d1 rw\nsay 1 mouse type=buttondown x=10 y=10 count=1 buttons=1 modifier=0\nsettle\nend\n";

// A source that fails at each read.
#[derive(Drop)]
struct Broken {
    faults: u64,
}

impl Source for Broken {
    ghost use Rattle.std.specs.Prelude.{None};

    ghost left = { λ _. None };

    ghost faults = { λ s. s.faults };

    fn read(&mut self, _into: &mut [u8]) -> ReadStep {
        self.faults = self.faults.saturating_add(1);
        ReadStep::Failed
    }
}

// The words of a command line.
fn words(rt: &HostRuntime, text: &str) -> Result<Vec<String>, Fail> {
    let mut words = Vec::new(rt.alloc());
    for word in text.split_whitespace() {
        words.push(String::from_str(rt.alloc(), word)?)?;
    }
    Ok(words)
}

#[test]
fn sources_that_fail(rt: HostRuntime) -> Result<(), Fail> {
    let table = [
        ("replay patch", 4),
        ("replay sheet", 4),
        ("replay text", 2),
        ("", 2),
    ];
    for (form, status) in table {
        let words = words(&rt, form)?;
        let mut source = Broken { faults: 0 };
        let mut sink = MemorySink::new(rt.alloc(), 100)?;
        let ended = replay(rt.alloc(), &words, &mut source, &mut sink);
        assert_eq!(rt; ended, status, "{form}");
        assert!(rt; sink.bytes().is_empty());
    }
    Ok(())
}

#[test]
fn sinks_that_fail(rt: HostRuntime) -> Result<(), Fail> {
    let table = [
        ("replay patch", CLICK, 5),
        ("replay sheet", CLICK, 5),
        ("replay patch", b"hop\n".as_slice(), 5),
        ("replay patch", b"turn 0 1\n".as_slice(), 7),
    ];
    for (form, script, status) in table {
        let words = words(&rt, form)?;
        let mut source = MemorySource::new(script);
        let mut sink = MemorySink::new(rt.alloc(), 0)?;
        let ended = replay(rt.alloc(), &words, &mut source, &mut sink);
        assert_eq!(rt; ended, status, "{form}");
        assert!(rt; sink.bytes().is_empty());
    }
    Ok(())
}
