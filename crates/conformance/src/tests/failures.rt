//! Devices of which each call fails in turn: what a run has written then, and its status.

use crate::tests::gates::CountedSource;
use crate::tests::receptions::words_of;
use dsc_cmd::{ByteSink, ByteSource, Failed, Sink, SureSink, SureSource, run};
use receiver_pool::Open;
use std::alloc::{AllocError, Global};
use std::process::Abort;
use std::sync::atomic::{AtomicU32, Ordering};
use std::test::Fail;
use std::thread::Threads;

// More bytes than a run of these tables writes, and more calls of a device than one makes.
const ROOM: usize = 16_384;

const MOST_CALLS: u64 = 16_384;

// A sink in memory that counts its writes and flushes together.
#[derive(Drop)]
struct CountedSink {
    sink: SureSink,
    calls: u64,
}

impl Sink for CountedSink {
    ghost use Rattle.byte_streams.specs.Sure.{no_faults, told};

    ghost written = { λ s. told s.sink };

    ghost flushed = { λ s. s.sink.flushed };

    ghost faults = { λ _. no_faults };

    fn write(&mut self, piece: &[u8]) -> Result<usize, Failed> {
        self.calls = self.calls.saturating_add(1);
        self.sink.write(piece)
    }

    fn flush(&mut self) -> Result<(), Failed> {
        self.calls = self.calls.saturating_add(1);
        self.sink.flush()
    }
}

// Words and an input, and how many bytes a call of a device moves at most.
#[derive(Clone, Copy)]
struct Case<'a> {
    words: &'a [String],
    input: &'a [u8],
    piece: usize,
}

// What a run without failures writes, its status, and how many calls it makes of its source and of its sink.
#[derive(Drop)]
struct Whole {
    written: Vec<u8>,
    status: u8,
    reads: u64,
    writes: u64,
}

fn whole_run<R: Threads + Sync>(
    rt: &R,
    alloc: Global,
    case: &Case<'_>,
) -> Result<Whole, AllocError> {
    let piece = case.piece.max(1);
    let reads = AtomicU32::new(0);
    let mut source = CountedSource {
        source: SureSource::new(case.input.to_vec(alloc)?, piece),
        reads: &reads,
    };
    let mut sink = CountedSink {
        sink: SureSink::new(alloc, ROOM, piece)?,
        calls: 0,
    };
    let status = run(rt, alloc, case.words, &mut source, &mut sink, &Open);
    Ok(Whole {
        written: sink.sink.bytes().to_vec(alloc)?,
        status: status.number(),
        reads: reads.load(Ordering::SeqCst).into(),
        writes: sink.calls,
    })
}

// What a run wrote of which this read, or this write or flush, fails, and its status.
fn failing_run<R: Threads + Sync>(
    rt: &R,
    alloc: Global,
    case: &Case<'_>,
    read: u64,
    write: u64,
) -> Result<(Vec<u8>, u8), AllocError> {
    let piece = case.piece.max(1);
    let input = case.input.to_vec(alloc)?;
    let mut source = ByteSource::new(input, piece, vec![in alloc; read]?);
    let mut sink = ByteSink::new(alloc, ROOM, piece, vec![in alloc; write]?)?;
    let status = run(rt, alloc, case.words, &mut source, &mut sink, &Open);
    Ok((sink.bytes().to_vec(alloc)?, status.number()))
}

// Has one read after the other fail until none does, or one write or flush, and answers how many did.
fn fail_calls<R: Threads + Sync + Abort>(
    rt: &R,
    alloc: Global,
    case: &Case<'_>,
    whole: &Whole,
    is_read: bool,
    is_quiet: bool,
) -> Result<u64, AllocError> {
    for number in 1..MOST_CALLS {
        let (read, write, refused) = if is_read {
            (number, 0, 4)
        } else {
            (0, number, 5)
        };
        let (written, status) = failing_run(rt, alloc, case, read, write)?;
        if status == whole.status {
            assert!(rt; written == whole.written, "call {number}");
            return Ok(number - 1);
        }
        let is_front = if is_quiet {
            written.is_empty()
        } else {
            whole.written.starts_with(&written)
        };
        assert!(rt; status == refused && is_front, "call {number}");
    }
    Ok(0)
}

// Each read and each write of a command over this input fails in turn, in pieces of 1 and of 64 bytes: as many as a run
// without failures makes.
fn try_failures<R: Threads + Sync + Abort>(
    rt: &R,
    alloc: Global,
    words: &str,
    input: &str,
    status: u8,
    is_quiet: bool,
) -> Result<(), Fail> {
    let list = words_of(alloc, words)?;
    for piece in [1, 64] {
        let case = Case {
            words: &list,
            input: input.as_bytes(),
            piece,
        };
        let whole = whole_run(rt, alloc, &case)?;
        assert_eq!(rt; whole.status, status, "{words}");
        let is_piecewise = whole.reads as usize >= input.len() / piece
            && whole.writes as usize > whole.written.len() / piece;
        assert!(rt; is_piecewise, "{words}");
        let reads = fail_calls(rt, alloc, &case, &whole, true, is_quiet)?;
        let writes = fail_calls(rt, alloc, &case, &whole, false, false)?;
        assert!(rt; reads == whole.reads && writes == whole.writes, "{words}");
    }
    Ok(())
}

// Each kind of line of receptions and evidence, the last one without its line feed.
const HEARD: &str = "\
# heard

r
r YB-
r g1
r g7 BY-YB
e
e 8:22 8:14
e g1
e g2 0:112 1:112 2:33 3:80 4:40 5:7 6:90 7:106 8:14 9:23 10:10 11:83 12:12 13:20 14:19 15:100 16:127 17:78
e g7 63:127";

#[test]
fn devices_fail_in_join_and_evidence(rt: HostRuntime) -> Result<(), Fail> {
    let alloc = rt.alloc();
    try_failures(&rt, alloc, "dsc join", HEARD, 1, true)?;
    let few = "r g2 YB-\ne g1 63:127 0:112";
    try_failures(&rt, alloc, "dsc join --workers 2", few, 1, true)?;
    try_failures(&rt, alloc, "dsc evidence", HEARD, 0, true)?;
    try_failures(&rt, alloc, "dsc evidence", "e 0:1\nr \n", 3, true)
}

// A call is told before the input's end.
#[test]
fn devices_fail_in_watch(rt: HostRuntime) -> Result<(), Fail> {
    try_failures(&rt, rt.alloc(), "dsc watch", HEARD, 1, false)
}

// Each kind of line of calls: with an expansion, and without one or a line feed.
const CALLS: &str = "\
# calls

alert from=338040079 nature=106 pos=1423108312 time=2019 then=100 exp enh=45894494
test to=002241022 cat=108 from=338040079 end=117";

#[test]
fn devices_fail_in_encode(rt: HostRuntime) -> Result<(), Fail> {
    let alloc = rt.alloc();
    try_failures(&rt, alloc, "dsc encode", CALLS, 0, false)?;
    try_failures(&rt, alloc, "dsc encode", "#\nx\n", 3, false)
}

// Calls, and sentences of both kinds that are accepted and refused.
const SENTENCES: &str = "\
# sentences

test to=002241022 cat=108 from=338040079 end=117
alert from=338040079 nature=106 pos=1423108312 time=2019 then=100 exp enh=45894494
$CDDSC,12,3380400790,12,06,00,1423108312,2019,,,S,*2F\r
$CDDSE,1,1,A,3380400790,00,45894494*1B\r
$CDDSC,12,3380400790,12,06,00,1423108312,2019,,,S,*2E\r
$";

#[test]
fn devices_fail_in_sentences(rt: HostRuntime) -> Result<(), Fail> {
    try_failures(&rt, rt.alloc(), "dsc sentences", SENTENCES, 1, false)
}

// Each kind of line of a stream. It has two starts, the first one before its first element, and lost elements between
// them.
const STREAM: &str = "\
# a stream

s YBYYYYYBBYBYYYBYYBYB
s YBYYYYYBBY-
s ---------YBYYYYYBBY
s YYYYBYYBBYYBYYYYYBBY";

#[test]
fn devices_fail_in_capture(rt: HostRuntime) -> Result<(), Fail> {
    try_failures(&rt, rt.alloc(), "dsc capture", STREAM, 1, false)
}

#[test]
fn devices_fail_in_book(rt: HostRuntime) -> Result<(), Fail> {
    let alloc = rt.alloc();
    let log =
        "# a log\n\n$CDDSC,12,3380400790,12,06,00,1423108312,2019,,,S,*2F\r\n$CDDSE,1,1,A,3380400790,00,45894494*1B\n$";
    try_failures(&rt, alloc, "dsc book", log, 1, true)
}

// Each kind of line of a ship's traffic file, with events that are refused and a group that isn't reported.
const SHIP: &str = "\
# a ship
station ship 338158137
base 1714594740
group 023380001

0 position 1423108312
0 delay 210000
0 alert nature=106 then=100
1 alert nature=106 then=100
210000 tick
220000 hear ack from=002241022 casualty=338158137 nature=106 pos=1423108312 time=2019 then=100
220001 cancel
220002 hear test to=338158137 cat=108 from=002241022 end=117
220003 hear one to=338158137 cat=100 from=002241022 first=109 second=126 f1=none f2=none end=117
220004 answer 1
220005 send test to=002241022 cat=108 from=338158137 end=117
220006 decline 1
r g4 YB-
e g5 0:112 1:112 2:33 3:80 4:40 5:7 6:90 7:106 8:14 9:23 10:10 11:83 12:12 13:20 14:19 15:100 16:127 17:78
220007 heard g5
220008 heard g4
1 tick";

// Each kind of line of a coast station's traffic file that a ship's has not.
const COAST: &str = "\
station coast 002241022 mf
base 0
0 hear alert from=338040079 nature=106 pos=1423108312 time=2019 then=100
1 accept 338040079
2 accept 338040079 60000
3 relay 338040079 to=area:1430840202 tell
4 relay 338040079 to=all ask
60000 tick
60001 relay 338040079 to=all ask";

#[test]
fn devices_fail_in_a_replay_of_a_ship(rt: HostRuntime) -> Result<(), Fail> {
    try_failures(&rt, rt.alloc(), "dsc replay", SHIP, 1, false)
}

#[test]
fn devices_fail_in_a_replay_of_a_coast_station(rt: HostRuntime) -> Result<(), Fail> {
    try_failures(&rt, rt.alloc(), "dsc replay", COAST, 1, false)
}

// Each kind of line of an exchange, with a refused event and a call that was never sent.
const LINK: &str = "\
# a link
station ship 338040079
station coast 002241022 mf
base 1714594740

s 0 position 1423108312
s 0 delay 210000
s 0 alert nature=106 then=100
c 5000 get 0
c 7000 accept 338040079 60000
c 65000 tick
s 65001 get 0
s 65002 get 1
s 1 tick";

#[test]
fn devices_fail_in_an_exchange(rt: HostRuntime) -> Result<(), Fail> {
    try_failures(&rt, rt.alloc(), "dsc exchange", LINK, 1, false)
}
