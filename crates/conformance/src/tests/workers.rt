//! Workers: they meet in the gate, and change no answer.

use crate::tests::receptions::{REPORTED, compare, heard_at_a_ship, joined, two_damaged, words_of};
use dsc_cmd::{SureSink, SureSource, run};
use receiver_pool::Rendezvous;
use std::alloc::{AllocError, Global};
use std::process::Abort;
use std::test::Fail;
use std::thread::Threads;

// What a run wrote whose workers wait for so many in the gate: so many enter it, once each, and all of them meet.
fn written_as_met<R: Threads + Sync + Abort>(
    rt: &R,
    alloc: Global,
    words: &str,
    input: Vec<u8>,
    awaited: u32,
) -> Result<Vec<u8>, Fail> {
    let list = words_of(alloc, words)?;
    let gate = Rendezvous::of(awaited);
    let mut source = SureSource::new(input, 4096);
    let mut sink = SureSink::new(alloc, 4096, 4096)?;
    let _status = run(rt, alloc, &list, &mut source, &mut sink, &gate);
    assert_eq!(rt; gate.entered(), awaited, "{words}");
    assert_eq!(rt; gate.came_together(), awaited, "{words}");
    Ok(sink.bytes().to_vec(alloc)?)
}

// One worker enters the gate once. The watcher is the third of its run: workers who ended before it began would wait
// for it in vain.
#[test]
fn workers_meet_in_the_gate(rt: HostRuntime) -> Result<(), Fail> {
    let alloc = rt.alloc();
    for (words, awaited) in [
        ("dsc join", 1),
        ("dsc join --workers 2", 2),
        ("dsc evidence --workers 2", 2),
        ("dsc watch --workers 2", 3),
    ] {
        let alone = words.strip_suffix(" --workers 2").unwrap_or(words);
        let (want, _status) = joined(&rt, alloc, alone, two_damaged(alloc)?)?;
        let written = written_as_met(&rt, alloc, words, two_damaged(alloc)?, awaited)?;
        assert_eq!(rt; written, want, "{words}");
    }
    Ok(())
}

#[test]
fn workers_of_a_replay_meet_where_a_group_is_heard(rt: HostRuntime) -> Result<(), Fail> {
    let alloc = rt.alloc();
    let input = heard_at_a_ship(alloc, "7 heard g0\n")?;
    let written = written_as_met(&rt, alloc, "dsc replay --workers 2", input, 2)?;
    let want = b"7 distress casualty=338040079 nature=106 pos=1423108312 time=2019 then=100\n";
    assert_eq!(rt; written.as_slice(), want.as_slice());
    Ok(())
}

// 512 lines are two batches.
#[test]
fn full_batches(rt: HostRuntime) -> Result<(), Fail> {
    let alloc = rt.alloc();
    let lines = two_damaged(alloc)?;
    let mut input = Vec::new(alloc);
    for _ in 0..256 {
        input.extend_from_slice(&lines)?;
    }
    let want = REPORTED.as_bytes();
    compare(&rt, alloc, "dsc join --workers 3", input, want, 0)
}

// The two receptions are on both sides of the end of a batch.
#[test]
fn the_end_of_a_batch_parts_no_group(rt: HostRuntime) -> Result<(), Fail> {
    let alloc = rt.alloc();
    for words in ["dsc join", "dsc join --workers 2"] {
        let mut input = Vec::new(alloc);
        for _ in 0..255 {
            input.extend_from_slice(b"r\n")?;
        }
        input.extend_from_slice(&two_damaged(alloc)?)?;
        compare(&rt, alloc, words, input, REPORTED.as_bytes(), 0)?;
    }
    Ok(())
}

// Receptions of three groups and evidence of one of them, in turn.
fn mixed(alloc: Global) -> Result<Vec<u8>, AllocError> {
    let lines = two_damaged(alloc)?;
    let mut input = Vec::new(alloc);
    for turn in 0..200u32 {
        for (index, text) in lines.split(|byte| *byte == b'\n').enumerate() {
            if index < 2 && (turn % 3 != 1 || index == 0) {
                input.extend_from_slice(b"r g")?;
                input.push(b'0' + (turn % 3) as u8)?;
                input.extend_from_slice(text.get(1..).unwrap_or(b""))?;
                input.push(b'\n')?;
            }
        }
    }
    input.extend_from_slice(b"e g2 8:22\n")?;
    Ok(input)
}

#[test]
fn workers_change_no_answer(rt: HostRuntime) -> Result<(), Fail> {
    let alloc = rt.alloc();
    for (alone, together) in [
        (
            "dsc join",
            ["dsc join --workers 2", "dsc join --workers 64"],
        ),
        (
            "dsc evidence",
            ["dsc evidence --workers 3", "dsc evidence --workers=64"],
        ),
        (
            "dsc watch",
            ["dsc watch --workers 2", "dsc watch --workers 64"],
        ),
    ] {
        let (want, status) = joined(&rt, alloc, alone, mixed(alloc)?)?;
        for words in together {
            compare(&rt, alloc, words, mixed(alloc)?, &want, status)?;
        }
    }
    Ok(())
}
