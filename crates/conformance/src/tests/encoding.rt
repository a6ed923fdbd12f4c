//! Calls that are encoded, and joined again.
use crate::tests::forms::CALLS;
use crate::tests::receptions::{Row, WHOLE, compare, joined, line};
use dsc_symbols::worked::ALERT_SLOTS;
use std::alloc::{AllocError, Global};
use std::test::Fail;

const ALERT: &str = "alert from=338040079 nature=106 pos=1423108312 time=2019 then=100\n";

// What may follow a call: nothing, or an expansion of each choice of sets.
const TAILS: [&str; 8] = [
    "",
    " exp enh=45894494",
    " exp speed=0125",
    " exp course=3599",
    " exp enh=none speed=9999",
    " exp enh=45894494 course=none",
    " exp speed=none course=0000",
    " exp enh=00000000 speed=0125 course=3150",
];

// A file of calls of every form and to every address, with each tail, and what is reported of it.
pub(crate) fn calls_and_answers(alloc: Global) -> Result<(Vec<u8>, Vec<u8>), AllocError> {
    let mut calls = Vec::from_slice(alloc, b"# every form, address and choice of sets\n\n")?;
    let mut answers = Vec::new(alloc);
    let mut group = 0u32;
    for (text, _) in &CALLS {
        for tail in &TAILS {
            let line = format!(in alloc; "{text}{tail}\n")?;
            calls.extend_from_slice(line.as_bytes())?;
            let answer = format!(in alloc; "g{group} reported {line}")?;
            answers.extend_from_slice(answer.as_bytes())?;
            group = group.saturating_add(1);
        }
    }
    Ok((calls, answers))
}

#[test]
fn encoded_calls_are_joined(rt: HostRuntime) -> Result<(), Fail> {
    let alloc = rt.alloc();
    for words in ["dsc encode", "dsc encode --dots 200"] {
        let (calls, answers) = calls_and_answers(alloc)?;
        let (encoded, status) = joined(&rt, alloc, words, calls)?;
        assert_eq!(rt; status, 0, "{words}");
        compare(&rt, alloc, "dsc join", encoded, &answers, 0)?;
    }
    Ok(())
}

// The line of the worked alert's slots, after so many dots.
fn alert_line(alloc: Global, dots: usize) -> Result<Vec<u8>, AllocError> {
    let heard = line(alloc, &ALERT_SLOTS, &Row { dots, ..WHOLE })?;
    let mut text = Vec::from_slice(alloc, b"r g0")?;
    text.extend_from_slice(heard.strip_prefix(b"r").unwrap_or(&heard))?;
    Ok(text)
}

#[test]
fn the_worked_alert_encoded(rt: HostRuntime) -> Result<(), Fail> {
    let alloc = rt.alloc();
    for (dots, words) in [
        (20, "dsc encode"),
        (20, "dsc encode --dots=20"),
        (200, "dsc encode --dots 200"),
    ] {
        let input = Vec::from_slice(alloc, ALERT.as_bytes())?;
        compare(&rt, alloc, words, input, &alert_line(alloc, dots)?, 0)?;
    }
    Ok(())
}

// What the lines before the first fault gave comes before its line.
#[test]
fn faults_among_calls(rt: HostRuntime) -> Result<(), Fail> {
    let alloc = rt.alloc();
    for (input, first, fault) in [
        ("x\n", false, "dsc: line 1 column 1\n"),
        (
            "alert from=338040079 nature=106 pos=1423108312 time=2019 then=100\nx",
            true,
            "dsc: line 2 column 1\n",
        ),
        (
            "#\nalert from=338040079 nature=111 pos=1423108312 time=2019 then=100",
            false,
            "dsc: line 2 column 31\n",
        ),
        (
            "alert from=338040079 nature=106 pos=1423108312 time=2019 then=100\n\nr YB\n",
            true,
            "dsc: line 3 column 2\n",
        ),
        ("", false, ""),
    ] {
        let mut want = if first {
            alert_line(alloc, 20)?
        } else {
            Vec::new(alloc)
        };
        want.extend_from_slice(fault.as_bytes())?;
        let bytes = Vec::from_slice(alloc, input.as_bytes())?;
        let status = if fault.is_empty() { 0 } else { 3 };
        compare(&rt, alloc, "dsc encode", bytes, &want, status)?;
    }
    Ok(())
}
