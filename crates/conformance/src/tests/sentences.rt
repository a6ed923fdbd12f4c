//! Files of sentences and calls.
use crate::tests::encoding::calls_and_answers;
use crate::tests::receptions::{Run, compare, compare_runs, joined};
use std::test::Fail;

// Files of calls and sentences.
const FILES: [Run; 11] = [
    ("", "", 0),
    (
        "alert from=338040079 nature=106 pos=1423108312 time=2019 then=100\n",
        "$CDDSC,12,3380400790,12,06,00,1423108312,2019,,,S,*2F\r\n",
        0,
    ),
    (
        "alert from=338040079 nature=106 pos=1423108312 time=2019 then=100 exp enh=45894494",
        "$CDDSC,12,3380400790,12,06,00,1423108312,2019,,,S,E*6A\r\n$CDDSE,1,1,A,3380400790,00,45894494*1B\r\n",
        0,
    ),
    (
        "ack from=002241022 casualty=338040079 nature=106 pos=1423108312 time=2019 then=100\n",
        "$CDDSC,16,0022410220,12,10,00,1423108312,2019,3380400790,06,S,*2F\r\n",
        0,
    ),
    (
        "\
$CDDSC,12,3380400790,12,06,00,1423108312,2019,,,S,*2E
#
$CDDSC,12,3380400790,12,06,00,1423108312,2019,,,S,*2F\r
",
        "refused checksum 2F 2E\naccepted\n",
        1,
    ),
    ("$CDDSE,1,1,A,3380400790,00,45894494*1B", "accepted\n", 0),
    ("$\n", "refused start\n", 1),
    (
        "$CDDSC,12,3380400790,12,06,00,1423108312,2019,,,S,*2f\n",
        "refused end\n",
        1,
    ),
    (
        "$CDDSC,99,3380400790,12,06,00,1423108312,2019,,,S,*2C\n",
        "refused field 1\n",
        1,
    ),
    ("$\nx\n", "refused start\ndsc: line 2 column 1\n", 3),
    ("r YB\n", "dsc: line 1 column 2\n", 3),
];

#[test]
fn sentences_and_verdicts(rt: HostRuntime) -> Result<(), Fail> {
    compare_runs(&rt, rt.alloc(), "dsc sentences", &FILES)
}

// The sentences of calls of every form, to every address and with each choice of sets are accepted.
#[test]
fn sentences_of_calls_are_accepted(rt: HostRuntime) -> Result<(), Fail> {
    let alloc = rt.alloc();
    let (calls, _) = calls_and_answers(alloc)?;
    let (sentences, status) = joined(&rt, alloc, "dsc sentences", calls)?;
    assert_eq!(rt; status, 0);
    let mut want = Vec::new(alloc);
    for byte in &sentences {
        if *byte == b'\n' {
            want.extend_from_slice(b"accepted\n")?;
        }
    }
    // One sentence for each of 208 calls, and one for each of the 182 expansions after them.
    assert_eq!(rt; want.len(), 390 * 9);
    compare(&rt, alloc, "dsc sentences", sentences, &want, 0)
}

#[test]
fn a_sentence_that_is_too_long(rt: HostRuntime) -> Result<(), Fail> {
    let alloc = rt.alloc();
    let mut input = Vec::from_slice(alloc, b"$CDDSC,")?;
    for _ in 0..80 {
        input.push(b',')?;
    }
    compare(
        &rt,
        alloc,
        "dsc sentences",
        input,
        b"refused too long 89\n",
        1,
    )
}
