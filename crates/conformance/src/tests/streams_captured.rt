//! Streams that are captured.
use crate::tests::receptions::{Row, WHOLE, compare, compare_runs, line};
use dsc_symbols::worked::ALERT_SLOTS;
use std::alloc::{AllocError, Global};
use std::test::Fail;

// No start; a comment and an empty line, which add nothing; and lines that are none of a stream.
#[test]
fn small_streams(rt: HostRuntime) -> Result<(), Fail> {
    let runs = [
        ("", "", 0),
        ("s YBYB", "", 0),
        ("#\n\ns -", "", 0),
        ("s", "dsc: line 1 column 2\n", 3),
        ("s \n", "dsc: line 1 column 3\n", 3),
        ("s YB\ns YX", "dsc: line 2 column 4\n", 3),
        ("r YB\n", "dsc: line 1 column 1\n", 3),
    ];
    compare_runs(&rt, rt.alloc(), "dsc capture", &runs)
}

// Appends the line of a stream with the elements of the worked alert, after so many dots.
fn append_alert_element(alloc: Global, text: &mut Vec<u8>, dots: usize) -> Result<(), AllocError> {
    let heard = line(alloc, &ALERT_SLOTS, &Row { dots, ..WHOLE })?;
    text.push(b's')?;
    text.extend_from_slice(heard.strip_prefix(b"r").unwrap_or(&heard))?;
    Ok(())
}

const FIRST: &str =
    "at 20 g0 reported alert from=338040079 nature=106 pos=1423108312 time=2019 then=100\n";

const BOTH: &str = "\
at 20 g0 reported alert from=338040079 nature=106 pos=1423108312 time=2019 then=100
at 560 g1 reported alert from=338040079 nature=106 pos=1423108312 time=2019 then=100
";

// Two alerts back to back, in two lines and with one element a line.
#[test]
fn two_alerts_of_a_stream(rt: HostRuntime) -> Result<(), Fail> {
    let alloc = rt.alloc();
    let mut input = Vec::new(alloc);
    append_alert_element(alloc, &mut input, 20)?;
    append_alert_element(alloc, &mut input, 20)?;
    let mut single = Vec::new(alloc);
    for byte in &input {
        if *byte == b'Y' || *byte == b'B' {
            single.extend_from_slice(b"s ")?;
            single.push(*byte)?;
            single.push(b'\n')?;
        }
    }
    assert_eq!(rt; single.len(), 1_080 * 4);
    compare(&rt, alloc, "dsc capture", input, BOTH.as_bytes(), 0)?;
    compare(&rt, alloc, "dsc capture", single, BOTH.as_bytes(), 0)
}

// The first of three alerts is decided by 1,600 elements from its origin on, and so before a fault after them. By one
// less it isn't.
#[test]
fn starts_before_a_fault(rt: HostRuntime) -> Result<(), Fail> {
    let alloc = rt.alloc();
    for (dots, first) in [(20, FIRST), (19, "")] {
        let mut input = Vec::new(alloc);
        append_alert_element(alloc, &mut input, 20)?;
        append_alert_element(alloc, &mut input, 20)?;
        append_alert_element(alloc, &mut input, dots)?;
        input.extend_from_slice(b"x\n")?;
        let want = format!(in alloc; "{first}dsc: line 4 column 1\n")?;
        compare(&rt, alloc, "dsc capture", input, want.as_bytes(), 3)?;
    }
    Ok(())
}
