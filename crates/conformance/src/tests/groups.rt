//! Inputs of several groups, and evidence.
use crate::tests::receptions::{
    REPORTED, Run, WHOLE, WITHOUT_DX, compare, compare_runs, joined, line, words_of,
};
use dsc_cmd::{SureSink, SureSource, run};
use dsc_symbols::worked::ALERT_SLOTS;
use receiver_pool::Open;
use std::test::Fail;

// The evidence of a clean reception of the worked alert.
const EVIDENCE: &str =
    "e g0 0:112 1:112 2:33 3:80 4:40 5:7 6:90 7:106 8:14 9:23 10:10 11:83 12:12 13:20 14:19 15:100 16:127 17:78 18:127 19:127\n";

// Words, and a run over lines of several groups.
const GROUPS: [(&str, Run); 8] = [
    ("dsc join", ("e g4\n", "g4 missing 0\n", 1)),
    (
        "dsc join",
        (
            "e g9 0:120\ne g2 0:120 1:102\n",
            "g2 differ 0 102 120\ng9 missing 2\n",
            1,
        ),
    ),
    ("dsc join --workers 64", (EVIDENCE, REPORTED, 0)),
    (
        "dsc join --workers=2",
        (
            "r g3\ne 0:112 0:112\ne g3\nr\ne g1 63:127 63:0\n",
            "g0 missing 1\ng1 missing 0\ng3 missing 0\n",
            1,
        ),
    ),
    (
        "dsc evidence",
        ("r g3\ne 8:22 8:14 8:20\n", "e g0 8:14 8:22\ne g3\n", 0),
    ),
    ("dsc evidence --workers 3", (EVIDENCE, EVIDENCE, 0)),
    (
        "dsc evidence",
        ("e 0:1\ne g\n", "dsc: line 2 column 4\n", 3),
    ),
    ("dsc evidence", ("", "", 0)),
];

#[test]
fn groups_by_rising_number(rt: HostRuntime) -> Result<(), Fail> {
    for (words, run) in GROUPS {
        compare_runs(&rt, rt.alloc(), words, &[run])?;
    }
    Ok(())
}

#[test]
fn evidence_of_a_reception(rt: HostRuntime) -> Result<(), Fail> {
    let alloc = rt.alloc();
    let heard = line(alloc, &ALERT_SLOTS, &WHOLE)?;
    compare(&rt, alloc, "dsc evidence", heard, EVIDENCE.as_bytes(), 0)
}

// Evidence near each receiver and the join at the centre, with a reception that is beside the other's evidence, in both
// orders.
#[test]
fn evidence_beside_a_reception(rt: HostRuntime) -> Result<(), Fail> {
    let alloc = rt.alloc();
    let heard = line(alloc, &ALERT_SLOTS, &WITHOUT_DX)?;
    let (told, _) = joined(&rt, alloc, "dsc evidence", heard.clone()?)?;
    let other = b"e 7:106 19:127 18:127\n".as_slice();
    for (first, second) in [(heard.as_slice(), other), (other, told.as_slice())] {
        let mut input = Vec::from_slice(alloc, first)?;
        input.extend_from_slice(second)?;
        compare(&rt, alloc, "dsc join", input, REPORTED.as_bytes(), 0)?;
    }
    Ok(())
}

#[test]
fn as_many_groups_as_an_input_may_have(rt: HostRuntime) -> Result<(), Fail> {
    let alloc = rt.alloc();
    for (groups, status) in [(1_024u32, 1), (1_025, 7)] {
        let mut input = Vec::new(alloc);
        for group in 0..groups {
            input.extend_from_slice(format!(in alloc;
                "e g{group}\nr g{}\n",
                group / 2
            )?.as_bytes())?;
        }
        let words = words_of(alloc, "dsc join")?;
        let mut source = SureSource::new(input, 4096);
        let mut sink = SureSink::new(alloc, 32_768, 4096)?;
        let ended = run(&rt, alloc, &words, &mut source, &mut sink, &Open).number();
        assert_eq!(rt; ended, status, "{groups}");
        let written = sink.bytes();
        if status == 7 {
            assert_eq!(rt; written, b"dsc: line 2049 too many groups\n".as_slice());
        } else {
            assert!(rt; written.starts_with(b"g0 missing 0\ng1 missing 0\n"));
            assert!(rt; written.ends_with(b"g1022 missing 0\ng1023 missing 0\n"));
        }
    }
    Ok(())
}
