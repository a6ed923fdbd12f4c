//! Logs of sentences.
use crate::tests::receptions::{Run, compare_runs};
use std::test::Fail;

const BOTH: &str = "\
casualty 3380400790 alert from=3380400790 nature=06 pos=1423108312 time=2019 then=00
casualty 3380400790 ack from=0022410220 nature=06 pos=1423108312 time=2019 then=00
";

// Logs, and their books.
const LOGS: [Run; 9] = [
    ("", "", 0),
    // An acknowledgement, the alert, and the acknowledgement again.
    (
        "\
$CDDSC,16,0022410220,12,10,00,1423108312,2019,3380400790,06,S,*2F
$CDDSC,12,3380400790,12,06,00,1423108312,2019,,,S,*2F
$CDDSC,16,0022410220,12,10,00,1423108312,2019,3380400790,06,S,*2F
",
        BOTH,
        0,
    ),
    // The same in another order, as a serial line gives it, with an expansion, and with a sentence of another talker.
    (
        "\
# a log

$CDDSC,12,3380400790,12,06,00,1423108312,2019,,,S,E*6A\r
$CDDSE,1,1,A,3380400790,00,45894494*1B\r
$CDDSC,16,0022410220,12,10,00,1423108312,2019,3380400790,06,S,*2F\r
$GPXXX",
        BOTH,
        1,
    ),
    // An alert without any field but its sender.
    (
        "$CDDSC,12,3380400790,,,,,,,,S,*2D\n",
        "casualty 3380400790 alert from=3380400790 nature=- pos=- time=- then=-\n",
        0,
    ),
    // A relay to an area, and a relay's acknowledgement, in which what isn't known comes before what is.
    (
        "\
$CDDSC,02,1430840202,12,12,00,1423108312,2019,3380400790,06,S,*27
$CDDSC,16,0022410220,12,12,,,,3380400790,,B,*3D
$CDDSC,20,0022410220,12,12,00,1423108312,2019,3380400790,06,B,*39
",
        "\
casualty 3380400790 relay from=1430840202 nature=06 pos=1423108312 time=2019 then=00
casualty 3380400790 relayack from=0022410220 nature=- pos=- time=- then=-
casualty 3380400790 relayack from=0022410220 nature=06 pos=1423108312 time=2019 then=00
",
        0,
    ),
    // An acknowledgement that names no ship in distress, one of the category safety, and a distress call with another
    // telecommand.
    (
        "\
$CDDSC,16,0022410220,12,10,00,1423108312,2019,,,S,*2B
$CDDSC,16,0022410220,08,10,00,1423108312,2019,3380400790,06,S,*24
$CDDSC,16,0022410220,12,11,00,1423108312,2019,3380400790,06,S,*2E
",
        "",
        0,
    ),
    ("$\n#\n", "", 1),
    ("hello", "dsc: line 1 column 1\n", 3),
    // Nothing of the book comes before a fault.
    (
        "$CDDSC,12,3380400790,12,06,00,1423108312,2019,,,S,*2F\n $\n",
        "dsc: line 2 column 1\n",
        3,
    ),
];

#[test]
fn books_of_logs(rt: HostRuntime) -> Result<(), Fail> {
    compare_runs(&rt, rt.alloc(), "dsc book", &LOGS)
}
