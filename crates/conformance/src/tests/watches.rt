//! Calls that are told while an input is read.
use crate::tests::receptions::{
    DIFFERENT, THREE_DX, compare, damaged, line, of_group, two_damaged, words_of,
};
use dsc_cmd::{ByteSink, ByteSource, SureSink, SureSource, run};
use dsc_symbols::worked::ALERT_SLOTS;
use receiver_pool::Open;
use std::alloc::{AllocError, Global};
use std::test::Fail;

const CALL: &str = "alert from=338040079 nature=106 pos=1423108312 time=2019 then=100\n";

const TOLD: &str = "told g0 alert from=338040079 nature=106 pos=1423108312 time=2019 then=100\n";

const BOTH: &str = "\
told g0 alert from=338040079 nature=106 pos=1423108312 time=2019 then=100
g0 reported alert from=338040079 nature=106 pos=1423108312 time=2019 then=100
";

#[test]
fn a_call_is_told_and_then_reported(rt: HostRuntime) -> Result<(), Fail> {
    let alloc = rt.alloc();
    for words in ["dsc watch", "dsc watch --workers 2"] {
        compare(&rt, alloc, words, two_damaged(alloc)?, BOTH.as_bytes(), 0)?;
    }
    Ok(())
}

#[test]
fn no_call_is_told_of_three_phasing_symbols(rt: HostRuntime) -> Result<(), Fail> {
    let alloc = rt.alloc();
    let input = line(alloc, &ALERT_SLOTS, &THREE_DX)?;
    compare(&rt, alloc, "dsc watch", input, b"g0 missing 0\n", 1)
}

// The source gives a byte a read, and fails after the second reception's line: the call was told by then.
#[test]
fn a_call_is_told_before_the_next_read(rt: HostRuntime) -> Result<(), Fail> {
    let alloc = rt.alloc();
    for words in ["dsc watch", "dsc watch --workers 2"] {
        let words = words_of(alloc, words)?;
        let input = two_damaged(alloc)?;
        let behind = input.len() as u64 + 1;
        let mut source = ByteSource::new(input, 1, vec![in alloc; behind]?);
        let mut sink = SureSink::new(alloc, 4096, 4096)?;
        let status = run(&rt, alloc, &words, &mut source, &mut sink, &Open);
        assert_eq!(rt; sink.bytes(), TOLD.as_bytes());
        assert_eq!(rt; status.number(), 4);
    }
    Ok(())
}

// Three alerts, each of two receptions, neither of which reports it alone. Their groups are first named in another
// order than that in which they are reported, and than that of their numbers.
const NAMED: [(u32, bool); 6] = [
    (5, false),
    (9, true),
    (2, false),
    (2, true),
    (9, false),
    (5, true),
];

// In one batch calls are told in the order in which its lines first named their groups; where each line is a batch, as
// they are reported.
#[test]
fn told_calls_come_in_the_order_of_their_groups(rt: HostRuntime) -> Result<(), Fail> {
    let alloc = rt.alloc();
    let mut input = Vec::new(alloc);
    for (group, is_second) in NAMED {
        input.extend_from_slice(&of_group(alloc, group, &damaged(alloc, is_second)?)?)?;
    }
    for (piece, order) in [(65_536, [5, 9, 2]), (1, [2, 9, 5])] {
        for words in ["dsc watch", "dsc watch --workers 3"] {
            let mut source = SureSource::new(input.to_vec(alloc)?, piece);
            let mut sink = SureSink::new(alloc, 4096, 4096)?;
            let words = words_of(alloc, words)?;
            let status = run(&rt, alloc, &words, &mut source, &mut sink, &Open);
            assert_eq!(rt; status.number(), 0);
            let mut want = Vec::new(alloc);
            for group in order {
                want.extend_from_slice(format!(in alloc; "told g{group} {CALL}")?.as_bytes())?;
            }
            assert!(rt; sink.bytes().starts_with(&want), "{piece}");
        }
    }
    Ok(())
}

// A full batch of 256 receptions: the one of a call and both of another, or the second one of the first call, and
// others.
fn full_batch(alloc: Global, is_second: bool) -> Result<Vec<u8>, AllocError> {
    let mut batch = of_group(alloc, 5, &damaged(alloc, is_second)?)?;
    for _ in 0..253 {
        batch.extend_from_slice(b"r g5 YB\n")?;
    }
    for of_both in [false, true] {
        let line = if is_second {
            Vec::from_slice(alloc, b"r YB\n")?
        } else {
            damaged(alloc, of_both)?
        };
        batch.extend_from_slice(&of_group(alloc, 9, &line)?)?;
    }
    Ok(batch)
}

// Each full batch reports the call that is whole at its end, and the write after it may fail. The second call was named
// first.
#[test]
fn two_full_batches_are_told(rt: HostRuntime) -> Result<(), Fail> {
    let alloc = rt.alloc();
    let first = full_batch(alloc, false)?;
    let mut input = first.to_vec(alloc)?;
    input.extend_from_slice(&full_batch(alloc, true)?)?;
    let first_told = format!(in alloc; "told g9 {CALL}")?;
    let both_told = format!(in alloc; "{first_told}told g5 {CALL}")?;
    let whole = format!(in alloc; "{both_told}g5 reported {CALL}g9 reported {CALL}")?;
    let rows: [(u64, &[u8], u8); 4] = [
        (1, b"", 5),
        (2, first_told.as_bytes(), 5),
        (3, both_told.as_bytes(), 5),
        (9, whole.as_bytes(), 0),
    ];
    for words in ["dsc watch", "dsc watch --workers 2"] {
        let words = words_of(alloc, words)?;
        for (failing, want, status) in rows {
            let mut source = SureSource::new(input.to_vec(alloc)?, first.len().max(1));
            let mut sink = ByteSink::new(alloc, 4096, 4096, vec![in alloc; failing]?)?;
            let ended = run(&rt, alloc, &words, &mut source, &mut sink, &Open);
            assert_eq!(rt; sink.bytes(), want, "write {failing}");
            assert_eq!(rt; ended.number(), status, "write {failing}");
        }
    }
    Ok(())
}

// A group whose call was told hears more, which differs; it is told once, and the answer at the end is that to all.
#[test]
fn a_told_call_stays_told(rt: HostRuntime) -> Result<(), Fail> {
    let alloc = rt.alloc();
    let mut input = two_damaged(alloc)?;
    input.extend_from_slice(&line(alloc, &ALERT_SLOTS, &DIFFERENT)?)?;
    let want = format!(in alloc; "{TOLD}g0 differ 7 106 120\n")?;
    let words = words_of(alloc, "dsc watch")?;
    let mut source = SureSource::new(input, 1);
    let mut sink = SureSink::new(alloc, 4096, 4096)?;
    let status = run(&rt, alloc, &words, &mut source, &mut sink, &Open);
    assert_eq!(rt; sink.bytes(), want.as_bytes());
    assert_eq!(rt; status.number(), 1);
    Ok(())
}
