//! Receptions that are joined, faults of lines, and refused words.
use crate::tests::receptions::{
    Damaged, REPORTED, Row, Run, THREE_DX, WHOLE, compare, compare_receptions, compare_runs, line,
    two_damaged,
};
use dsc_symbols::worked::{ALERT_SLOTS, LOST_DX_AND_PLACE_7};
use std::test::Fail;
use time_diversity::on_air;

const DAMAGED: [Damaged; 10] = [
    (
        "RX copies but that of place 7",
        &LOST_DX_AND_PLACE_7,
        &[],
        "g0 missing 7\n",
    ),
    ("second format lost", &[14, 19], &[], "g0 missing 1\n"),
    (
        "two-way error in one copy",
        &[],
        &[(28, 22)],
        "g0 differ 8 14 22\n",
    ),
    (
        "wrong check",
        &[],
        &[(46, 79), (51, 79)],
        "g0 check 17 78 79\n",
    ),
    (
        "tenth identity digit",
        &[],
        &[(24, 91), (29, 91)],
        "g0 outside 6 91\n",
    ),
    ("first end lost", &[44, 49], &[], REPORTED),
    (
        "first end and check lost",
        &[44, 46, 49, 51],
        &[],
        "g0 missing 17\n",
    ),
    ("all ends lost", &[44, 48, 49, 50], &[], "g0 missing 16\n"),
    (
        "first end lost, the later ones differ",
        &[44, 49],
        &[(48, 117)],
        "g0 missing 16\n",
    ),
    (
        "a test call's format",
        &[],
        &[(12, 120), (14, 120), (17, 120), (19, 120)],
        "g0 outside 7 106\n",
    ),
];

// The list of a test call from 338040079 to 002241022.
const TEST_CALL: [u8; 25] = [
    120, 120, 0, 22, 41, 2, 20, 108, 33, 80, 40, 7, 90, 118, 126, 126, 126, 126, 126, 126, 126,
    117, 68, 117, 117,
];

const TEST_CALL_REPORTED: &str = "g0 reported test to=002241022 cat=108 from=338040079 end=117\n";

const DAMAGED_TEST_CALL: [Damaged; 4] = [
    ("whole", &[], &[], TEST_CALL_REPORTED),
    ("second format lost", &[14, 19], &[], TEST_CALL_REPORTED),
    ("first format lost", &[12, 17], &[], TEST_CALL_REPORTED),
    (
        "first end lost, the later ones are another call's",
        &[54, 59],
        &[(58, 122), (60, 122)],
        "g0 missing 21\n",
    ),
];

// Inputs at their edges, and the first fault of some.
const FAULTS: [Run; 7] = [
    ("", "", 0),
    ("\n#\n# r\n", "", 0),
    ("r", "g0 missing 0\n", 1),
    ("r\n#", "g0 missing 0\n", 1),
    ("r YB\r\n", "dsc: line 1 column 5\n", 3),
    ("#\n\nr h0\n", "dsc: line 3 column 3\n", 3),
    ("r Y\ne 0:1\nx\n", "dsc: line 3 column 1\n", 3),
];

// Words that are no command.
const REFUSED: [&str; 11] = [
    "dsc listen",
    "dsc join --",
    "dsc join --workers 0",
    "dsc join --workers 65",
    "dsc join evidence",
    "dsc encode --dots 30",
    "dsc sentences --dots 20",
    "dsc capture --workers 2",
    "join",
    "dsc",
    "",
];

#[test]
fn damaged_receptions_of_one_alert(rt: HostRuntime) -> Result<(), Fail> {
    compare_receptions(&rt, rt.alloc(), &ALERT_SLOTS, &DAMAGED)
}

#[test]
fn receptions_that_begin_or_end_elsewhere(rt: HostRuntime) -> Result<(), Fail> {
    let alloc = rt.alloc();
    for (dots, first) in [(20, 0), (0, 0), (7, 0), (0, 9)] {
        let row = Row {
            dots,
            first,
            ..WHOLE
        };
        let heard = line(alloc, &ALERT_SLOTS, &row)?;
        compare(&rt, alloc, "dsc join", heard, REPORTED.as_bytes(), 0)?;
    }
    let heard = line(alloc, &ALERT_SLOTS, &THREE_DX)?;
    compare(&rt, alloc, "dsc join", heard, b"g0 missing 0\n", 1)
}

#[test]
fn two_receptions_of_one_alert(rt: HostRuntime) -> Result<(), Fail> {
    let alloc = rt.alloc();
    let input = two_damaged(alloc)?;
    compare(&rt, alloc, "dsc join", input, REPORTED.as_bytes(), 0)
}

#[test]
fn a_clean_and_a_damaged_reception_in_both_orders(rt: HostRuntime) -> Result<(), Fail> {
    let alloc = rt.alloc();
    let other = &[(28, 22)];
    let clean = line(alloc, &ALERT_SLOTS, &WHOLE)?;
    let damaged = line(alloc, &ALERT_SLOTS, &Row { other, ..WHOLE })?;
    for (first, second) in [(&clean, &damaged), (&damaged, &clean)] {
        let mut input = first.as_slice().to_vec(alloc)?;
        input.extend_from_slice(second)?;
        compare(&rt, alloc, "dsc join", input, b"g0 differ 8 14 22\n", 1)?;
    }
    Ok(())
}

#[test]
fn damaged_receptions_of_one_test_call(rt: HostRuntime) -> Result<(), Fail> {
    compare_receptions(&rt, rt.alloc(), &on_air(&TEST_CALL), &DAMAGED_TEST_CALL)
}

#[test]
fn as_many_lost_elements_as_a_line_holds(rt: HostRuntime) -> Result<(), Fail> {
    let alloc = rt.alloc();
    for (lost, want, status) in [
        (4_198, "g0 missing 0\n", 1),
        (4_199, "dsc: line 1 too long\n", 7),
    ] {
        let mut input = Vec::from_slice(alloc, b"r ")?;
        input.extend_from_slice(&vec![in alloc; b'-'; lost]?)?;
        compare(&rt, alloc, "dsc join", input, want.as_bytes(), status)?;
    }
    Ok(())
}

#[test]
fn faults_of_lines(rt: HostRuntime) -> Result<(), Fail> {
    compare_runs(&rt, rt.alloc(), "dsc join", &FAULTS)
}

#[test]
fn refused_words(rt: HostRuntime) -> Result<(), Fail> {
    let run = ("r YB\n", "dsc: words refused\n", 2);
    for words in REFUSED {
        compare_runs(&rt, rt.alloc(), words, &[run])?;
    }
    Ok(())
}
