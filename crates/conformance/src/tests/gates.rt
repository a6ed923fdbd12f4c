//! Who enters the gate, how often, and what was read by then. No clause can see it.

use crate::tests::receptions::{DIFFERENT, WHOLE, damaged, line, words_of};
use dsc_cmd::{Failed, Source, SureSink, SureSource, run};
use dsc_symbols::worked::ALERT_SLOTS;
use receiver_pool::Gate;
use std::alloc::{AllocError, Global};
use std::sync::atomic::{AtomicU32, Ordering};
use std::test::Fail;
use std::thread::Threads;

// A source in memory that counts its reads where others see the count.
#[derive(Drop)]
pub(crate) struct CountedSource<'a> {
    pub(crate) source: SureSource,
    pub(crate) reads: &'a AtomicU32,
}

impl Source for CountedSource<'_> {
    ghost use Rattle.std.specs.Prelude.{Some};
    ghost use Rattle.byte_streams.specs.Sure.{no_faults};

    ghost left = { λ s. Some s.source.left };

    ghost faults = { λ _. no_faults };

    fn read(&mut self, into: &mut [u8]) -> Result<usize, Failed> {
        self.reads.fetch_add(1, Ordering::SeqCst);
        self.source.read(into)
    }
}

// A gate that counts who enters, which of them are other workers than the first one, and who enters before a read.
#[derive(Drop)]
struct Counting<'a> {
    reads: &'a AtomicU32,
    entered: AtomicU32,
    others: AtomicU32,
    early: AtomicU32,
}

impl Gate for Counting<'_> {
    fn enter(&self, worker: u32) {
        self.entered.fetch_add(1, Ordering::SeqCst);
        if worker > 0 {
            self.others.fetch_add(1, Ordering::SeqCst);
        }
        if self.reads.load(Ordering::SeqCst) == 0 {
            self.early.fetch_add(1, Ordering::SeqCst);
        }
    }
}

// How often workers entered, how often others than the first one, and how often before anything was read.
type Entries = (u32, u32, u32);

fn entries<R: Threads + Sync>(
    rt: &R,
    alloc: Global,
    words: &str,
    input: Vec<u8>,
) -> Result<Entries, AllocError> {
    let words = words_of(alloc, words)?;
    let reads = AtomicU32::new(0);
    let gate = Counting {
        reads: &reads,
        entered: AtomicU32::new(0),
        others: AtomicU32::new(0),
        early: AtomicU32::new(0),
    };
    let mut source = CountedSource {
        source: SureSource::new(input, 64),
        reads: &reads,
    };
    let mut sink = SureSink::new(alloc, 4096, 4096)?;
    let _status = run(rt, alloc, &words, &mut source, &mut sink, &gate);
    Ok((
        gate.entered.load(Ordering::SeqCst),
        gate.others.load(Ordering::SeqCst),
        gate.early.load(Ordering::SeqCst),
    ))
}

// So many receptions, between these lines.
fn receptions(alloc: Global, first: &str, count: u32, last: &str) -> Result<Vec<u8>, AllocError> {
    let mut input = Vec::from_slice(alloc, first.as_bytes())?;
    for _ in 0..count {
        input.extend_from_slice(b"r g1 YB\n")?;
    }
    input.extend_from_slice(last.as_bytes())?;
    Ok(input)
}

// Words, the number of receptions, and the entries. One worker enters once, before the first line; several enter once
// in each batch of at most 256 receptions.
const ROWS: [(&str, u32, Entries); 10] = [
    ("", 0, (1, 0, 1)),
    ("", 2, (1, 0, 1)),
    ("", 300, (1, 0, 1)),
    (" --workers 2", 0, (0, 0, 0)),
    (" --workers 2", 2, (2, 1, 0)),
    (" --workers 2", 256, (2, 1, 0)),
    (" --workers 2", 257, (4, 2, 0)),
    (" --workers 64", 0, (0, 0, 0)),
    (" --workers 64", 2, (64, 63, 0)),
    (" --workers 64", 300, (128, 126, 0)),
];

// Those of a watch: in each batch of receptions all workers enter once, and a watcher beside them; one who works alone
// has entered before the first line, and has no batch of receptions that show nothing. The source gives eight lines a
// read, after which a batch ends: 300 lines are 38 batches.
const WATCHED: [(&str, u32, Entries); 4] = [
    ("dsc watch", 0, (1, 0, 1)),
    ("dsc watch", 2, (1, 0, 1)),
    ("dsc watch --workers 2", 300, (114, 76, 0)),
    ("dsc watch --workers 64", 2, (65, 64, 0)),
];

#[test]
fn entries_of_a_watch_are_counted(rt: HostRuntime) -> Result<(), Fail> {
    let alloc = rt.alloc();
    for (words, count, want) in WATCHED {
        let input = receptions(alloc, "", count, "")?;
        let got = entries(&rt, alloc, words, input)?;
        assert_eq!(rt; got, want, "{words} {count}");
    }
    Ok(())
}

// Where one worker works alone, a reception is a batch of its own if it shows something new of a group of which no call
// was told. Each line is longer than a read.
#[test]
fn receptions_without_news_wait_for_no_batch(rt: HostRuntime) -> Result<(), Fail> {
    let alloc = rt.alloc();
    let whole = line(alloc, &ALERT_SLOTS, &WHOLE)?;
    let other = line(alloc, &ALERT_SLOTS, &DIFFERENT)?;
    let first = damaged(alloc, false)?;
    let second = damaged(alloc, true)?;
    for (lines, want) in [
        ([&whole, &other, &first], (3, 1, 1)),
        ([&first, &first, &first], (3, 1, 1)),
        ([&first, &second, &second], (5, 2, 1)),
    ] {
        let mut input = Vec::new(alloc);
        for line in lines {
            input.extend_from_slice(line)?;
        }
        assert_eq!(rt; entries(&rt, alloc, "dsc watch", input)?, want);
    }
    Ok(())
}

#[test]
fn entries_are_counted(rt: HostRuntime) -> Result<(), Fail> {
    let alloc = rt.alloc();
    for (command, first, last) in [
        ("dsc join", "", ""),
        ("dsc evidence", "", ""),
        (
            "dsc replay",
            "station ship 338158137\nbase 0\n",
            "7 heard g1\n",
        ),
    ] {
        for (workers, count, want) in ROWS {
            let words = format!(in alloc; "{command}{workers}")?;
            let input = receptions(alloc, first, count, last)?;
            let got = entries(&rt, alloc, &words, input)?;
            assert_eq!(rt; got, want, "{words} {count}");
        }
    }
    // `make` reads nothing, and has one worker, which enters before the first reception.
    for (words, want) in [("dsc make 1", (1, 0, 1)), ("dsc make 7", (1, 0, 1))] {
        assert_eq!(rt;
            entries(&rt, alloc, words, Vec::new(alloc))?,
            want,
            "{words}"
        );
    }
    Ok(())
}
