//! Files of exchanges.
use crate::tests::receptions::{Run, compare_runs};
use std::test::Fail;

// Files of exchanges, and what both ends do.
const EXCHANGES: [Run; 10] = [
    ("# nothing\n\n", "", 0),
    // An alert comes twice, is acknowledged, and its acknowledgement comes twice.
    (
        "\
station ship 338040079
station coast 002241022 mf
base 0
s 0 delay 210000
s 0 alert nature=106 then=100
c 5000 get 0
c 6000 get 0
c 7000 accept 338040079 60000
c 65999 tick
c 66000 tick
s 66000 get 0
s 67000 get 0
",
        "\
s 0 send 5 alert from=338040079 nature=106 pos=9999999999 time=8888 then=100
c 5000 distress casualty=338040079 nature=106 pos=9999999999 time=8888 then=100
c 6000 distress casualty=338040079 nature=106 pos=9999999999 time=8888 then=100
c 66000 send 1 ack from=002241022 casualty=338040079 nature=106 pos=9999999999 time=8888 then=100
s 66000 ended
",
        0,
    ),
    // No call was sent, and a refused event moves no end's time.
    (
        "\
station ship 338040079
# a comment
station coast 002241022 vhf

base 0
s 5 get 1
c 7 get 4294967295
s 6 cancel
s 5 tick",
        "s 5 nothing 1\nc 7 nothing 4294967295\ns 6 refused noalert\n",
        1,
    ),
    // The time of a position counts from the base, and each end has moments of its own.
    (
        "\
station ship 338040079
station coast 002241022 vhf
base 1714594740
s 9 delay 210000
s 9 position 1423108312
s 9 alert nature=106 then=100
c 8 get 0
c 7 tick
",
        "\
s 9 send 5 alert from=338040079 nature=106 pos=1423108312 time=2019 then=100
c 8 distress casualty=338040079 nature=106 pos=1423108312 time=2019 then=100
c 7 refused timeback 8 7
",
        1,
    ),
    // Lines that belong to another point, and nothing after the fault.
    ("station coast 002241022 mf\n", "dsc: line 1 column 9\n", 3),
    (
        "station ship 338040079\nstation coast 338040079 mf\n",
        "dsc: line 2 column 23\n",
        3,
    ),
    (
        "station ship 338040079\nstation coast 002241022 mf\ns 0 tick\n",
        "dsc: line 3 column 1\n",
        3,
    ),
    // No call is heard by hand, and each end has its own events.
    (
        "station ship 338040079\nstation coast 002241022 mf\nbase 0\ns 3 cancel\ns 4 hear test\ns 5 cancel\n",
        "s 3 refused noalert\ndsc: line 5 column 5\n",
        3,
    ),
    (
        "station ship 338040079\nstation coast 002241022 mf\nbase 0\nc 0 cancel\n",
        "dsc: line 4 column 5\n",
        3,
    ),
    (
        "station ship 338040079\nstation coast 002241022 mf\nbase 0\nc 0 get 4294967296\n",
        "dsc: line 4 column 18\n",
        3,
    ),
];

#[test]
fn exchanges_of_both_ends(rt: HostRuntime) -> Result<(), Fail> {
    compare_runs(&rt, rt.alloc(), "dsc exchange", &EXCHANGES)
}
