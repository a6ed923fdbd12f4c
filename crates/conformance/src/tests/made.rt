//! Generated joins.
use crate::tests::receptions::words_of;
use dsc_cmd::{Source, SureSink, SureSource, run};
use receiver_pool::Open;
use std::test::Fail;

// A generated join leaves the source alone.
#[test]
fn generated_joins(rt: HostRuntime) -> Result<(), Fail> {
    let alloc = rt.alloc();
    for (number, want, status) in [
        ("6", "groups 6\nreceptions 24\nreported 6\nmissing 0\n", 0),
        ("7", "groups 7\nreceptions 28\nreported 6\nmissing 1\n", 1),
        ("0", "dsc: words refused\n", 2),
        ("07", "dsc: words refused\n", 2),
    ] {
        let line = format!(in alloc; "dsc make {number}")?;
        let words = words_of(alloc, &line)?;
        let mut source = SureSource::new(Vec::from_slice(alloc, b"r X\n")?, 8);
        let mut sink = SureSink::new(alloc, 256, 16)?;
        let ended = run(&rt, alloc, &words, &mut source, &mut sink, &Open);
        assert_eq!(rt; sink.bytes(), want.as_bytes(), "{line}");
        assert_eq!(rt; ended.number(), status, "{line}");
        assert_eq!(rt; source.read(&mut [0; 8]), Ok(4), "{line}");
    }
    Ok(())
}
