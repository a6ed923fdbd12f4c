//! Flushes, and sources without end.
use crate::tests::receptions::words_of;
use dsc_cmd::{ByteSink, Failed, Source, SureSink, SureSource, run};
use receiver_pool::Open;
use std::test::Fail;

// A run that ends well makes its writes and one flush, and no call after them: a call that would fail isn't made.
#[test]
fn one_flush_at_the_end(rt: HostRuntime) -> Result<(), Fail> {
    let alloc = rt.alloc();
    for (words, input, calls, status) in [
        ("dsc listen", "r\n", 2, 2),
        ("dsc join", "x\n", 2, 3),
        ("dsc join", "r\n", 2, 1),
        ("dsc join", "", 1, 0),
    ] {
        for (failing, ended) in [(calls, 5), (calls + 1, status)] {
            let bytes = Vec::from_slice(alloc, input.as_bytes())?;
            let mut source = SureSource::new(bytes, 4096);
            let mut sink = ByteSink::new(alloc, 64, 64, vec![in alloc; failing]?)?;
            let words = words_of(alloc, words)?;
            let number = run(&rt, alloc, &words, &mut source, &mut sink, &Open).number();
            assert_eq!(rt; number, ended, "{input:?} {failing}");
        }
    }
    Ok(())
}

// A source that never ends, and counts the bytes that it gave.
#[derive(Drop)]
struct Endless {
    byte: u8,
    given: u64,
}

impl Source for Endless {
    ghost use Rattle.byte_streams.specs.Standard.{untold};
    ghost use Rattle.byte_streams.specs.Sure.{no_faults};

    ghost left = { λ _. untold };

    ghost faults = { λ _. no_faults };

    fn read(&mut self, into: &mut [u8]) -> Result<usize, Failed> {
        into.fill(self.byte);
        self.given = self.given.saturating_add(into.len() as u64);
        Ok(into.len())
    }
}

#[test]
fn a_source_that_never_ends(rt: HostRuntime) -> Result<(), Fail> {
    let alloc = rt.alloc();
    let words = words_of(alloc, "dsc join")?;
    let mut source = Endless {
        byte: b'\n',
        given: 0,
    };
    let mut sink = SureSink::new(alloc, 64, 64)?;
    let status = run(&rt, alloc, &words, &mut source, &mut sink, &Open);
    assert_eq!(rt; status.number(), 7);
    let want = b"dsc: line 65537 too many lines\n";
    assert_eq!(rt; sink.bytes(), want.as_slice());
    // The lines that the limit allows, and one piece of reading more.
    assert!(rt; source.given <= 65_536 + 131_072);
    Ok(())
}
