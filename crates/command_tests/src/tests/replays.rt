//! Replays by their lines and statuses.
use input_lines::{SureSink, SureSource};
use receiver_pool::Open;
use std::alloc::{AllocError, Global};
use std::test::Fail;
use std::thread::Threads;
use traffic_replay::*;

// A traffic file, what its replay writes, and the status.
struct Row {
    name: &'static str,
    file: &'static str,
    want: &'static str,
    status: u8,
}

const ROWS: [Row; 16] = [
    Row {
        name: "no delay",
        file: "station ship 338158137\nbase 0\n0 alert nature=106 then=100\n",
        want: "0 refused needsdelay\n",
        status: 1,
    },
    Row {
        name: "sixteen delays",
        file: "station ship 338158137\nbase 0\n0 delay 210000\n0 delay 210000\n0 delay 210000\n0 delay 210000\n\
            0 delay 210000\n0 delay 210000\n0 delay 210000\n0 delay 210000\n0 delay 210000\n0 delay 210000\n\
            0 delay 210000\n0 delay 210000\n0 delay 210000\n0 delay 210000\n0 delay 210000\n0 delay 210000\n\
            0 delay 210000\n",
        want: "0 refused full\n",
        status: 1,
    },
    Row {
        name: "an alert is on",
        file: "station ship 338158137\nbase 0\n0 delay 210000\n0 alert nature=101 then=100\n1 alert nature=101 then=100\n",
        want: "0 send 5 alert from=338158137 nature=101 pos=9999999999 time=8888 then=100\n1 refused alertactive\n",
        status: 1,
    },
    Row {
        name: "a group that isn't reported is no event",
        file: "station ship 338158137\nbase 0\n\n# behind a comment\n9 heard g7\n4 tick\n4 cancel\n3 tick\n",
        want: "9 g7 missing 0\n4 refused noalert\n3 refused timeback 4 3\n",
        status: 1,
    },
    Row {
        name: "an input that ends early",
        file: "station ship 338158137\n",
        want: "",
        status: 0,
    },
    Row {
        name: "an event in front of the base",
        file: "station ship 338158137\n0 tick\n",
        want: "dsc: line 2 column 1\n",
        status: 3,
    },
    Row {
        name: "a group behind an event",
        file: "station ship 338158137\nbase 0\ngroup 000000001\n0 cancel\ngroup 000000002\n",
        want: "0 refused noalert\ndsc: line 5 column 1\n",
        status: 3,
    },
    Row {
        name: "facts begin anew",
        file: "station ship 338158137\nbase 0\ne g1 0:112\n1 heard g1\ne g1 1:112\n2 heard g1\n",
        want: "1 g1 missing 1\n2 g1 missing 0\n",
        status: 1,
    },
    Row {
        name: "a position request is answered",
        file: "station ship 338158137\nbase 0\n0 position 1423108312\n1000 hear askpos to=338158137 cat=100 from=002241022\n",
        want: "1000 send 1 pos to=002241022 cat=100 from=338158137 pos=1423108312 time=0000\n",
        status: 0,
    },
    Row {
        name: "a call is held and declined",
        file: "station ship 338158137\nbase 0\n2000 hear one to=338158137 cat=100 from=002241022 first=109 second=126 f1=none f2=none end=117\n3000 decline 1\n",
        want: "2000 held 1\n3000 send 1 one to=002241022 cat=100 from=338158137 first=104 second=100 f1=none f2=none end=122\n",
        status: 0,
    },
    Row {
        name: "an alert is not sent by hand",
        file: "station ship 338158137\nbase 0\n0 send alert from=338158137 nature=106 pos=9999999999 time=8888 then=100\n",
        want: "0 refused notsendable\n",
        status: 1,
    },
    Row {
        name: "a coast station on MF",
        file: "station coast 002241022 mf\nbase 1714594740\n0 hear alert from=338040079 nature=106 pos=1423108312 time=2019 then=100\n5000 accept 338040079 60000\n59999 tick\n60000 tick\n",
        want: "0 distress casualty=338040079 nature=106 pos=1423108312 time=2019 then=100\n60000 send 1 ack from=002241022 casualty=338040079 nature=106 pos=1423108312 time=2019 then=100\n",
        status: 0,
    },
    Row {
        name: "a coast station on VHF",
        file: "station coast 002241022 vhf\nbase 1714594740\n0 hear alert from=338040079 nature=106 pos=1423108312 time=2019 then=100\n5000 accept 338040079\n",
        want: "0 distress casualty=338040079 nature=106 pos=1423108312 time=2019 then=100\n5000 send 1 ack from=002241022 casualty=338040079 nature=106 pos=1423108312 time=2019 then=100\n",
        status: 0,
    },
    Row {
        name: "a casualty that another station closed",
        file: "station coast 002241022 mf\nbase 0\n\
            0 hear alert from=338040079 nature=106 pos=1423108312 time=2019 then=100\n\
            7000 hear ack from=002320001 casualty=338040079 nature=106 pos=1423108312 time=2019 then=100\n\
            8000 accept 338040079 60000\n8001 heard g1\n",
        want: "0 distress casualty=338040079 nature=106 pos=1423108312 time=2019 then=100\n7000 closed 338040079\n8000 refused nocasualty 338040079\n8001 g1 missing 0\n",
        status: 1,
    },
    Row {
        name: "an event of a ship at a coast station",
        file: "station coast 002241022 mf\nbase 0\n0 tick\n0 cancel\n",
        want: "dsc: line 4 column 3\n",
        status: 3,
    },
    Row {
        name: "an event of a coast station at a ship",
        file: "station ship 338158137\nbase 0\n0 accept 338040079\n",
        want: "dsc: line 3 column 4\n",
        status: 3,
    },
];

// More bytes than a replay of these tests writes.
const ROOM: usize = 10_000;

// What a replay over streams in memory wrote, which hand over a few bytes at a time, and its status.
fn replayed<R: Threads + Sync>(
    rt: &R,
    alloc: Global,
    file: Vec<u8>,
) -> Result<(Vec<u8>, u8), AllocError> {
    let mut source = SureSource::new(file, 7);
    let mut sink = SureSink::new(alloc, ROOM, 5)?;
    let status = replay(rt, alloc, &mut source, &mut sink, 1, &Open);
    Ok((sink.bytes().to_vec(alloc)?, status.number()))
}

#[test]
fn replays(rt: HostRuntime) -> Result<(), Fail> {
    for row in &ROWS {
        let file = Vec::from_slice(rt.alloc(), row.file.as_bytes())?;
        let (text, status) = replayed(&rt, rt.alloc(), file)?;
        assert_eq!(rt; text.as_slice(), row.want.as_bytes(), "{}", row.name);
        assert_eq!(rt; status, row.status, "{}", row.name);
    }
    Ok(())
}
