//! Replays that hear groups.
use crate::tests::receptions::{compare, damaged, heard_at_a_ship};
use std::test::Fail;

// A group's facts are heard once: after its line they begin anew.
#[test]
fn a_group_heard_twice(rt: HostRuntime) -> Result<(), Fail> {
    let alloc = rt.alloc();
    let want =
        b"7 distress casualty=338040079 nature=106 pos=1423108312 time=2019 then=100\n8 g0 missing 0\n";
    for words in ["dsc replay", "dsc replay --workers 64"] {
        let input = heard_at_a_ship(alloc, "7 heard g0\n8 heard g0\n")?;
        compare(&rt, alloc, words, input, want, 1)?;
    }
    Ok(())
}

// Two receptions that report a call only together, and so many others between them that both are in one batch of 256,
// or in two.
#[test]
fn a_call_of_two_batches(rt: HostRuntime) -> Result<(), Fail> {
    let alloc = rt.alloc();
    let want = b"7 distress casualty=338040079 nature=106 pos=1423108312 time=2019 then=100\n";
    for between in [254, 255] {
        let mut input = Vec::from_slice(alloc, b"station ship 338158137\nbase 0\n")?;
        input.extend_from_slice(&damaged(alloc, false)?)?;
        for _ in 0..between {
            input.extend_from_slice(b"r YB\n")?;
        }
        input.extend_from_slice(&damaged(alloc, true)?)?;
        input.extend_from_slice(b"7 heard g0\n")?;
        for words in ["dsc replay", "dsc replay --workers 2"] {
            compare(&rt, alloc, words, input.to_vec(alloc)?, want, 0)?;
        }
    }
    Ok(())
}
