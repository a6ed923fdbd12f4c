//! What is in the sink before each read of the source: the text that the lines so far give. No clause says so.

use crate::tests::receptions::{Row, WHOLE, line, two_damaged, words_of};
use dsc_cmd::{Failed, Sink, Source, SureSink, SureSource, run};
use dsc_symbols::worked::ALERT_SLOTS;
use receiver_pool::Open;
use std::alloc::{AllocError, Global};
use std::sync::atomic::{AtomicU64, Ordering};
use std::test::Fail;
use std::thread::Threads;

// A sink in memory that counts its bytes where the source sees the count.
#[derive(Drop)]
struct CountedSink<'a> {
    sink: SureSink,
    written: &'a AtomicU64,
}

impl Sink for CountedSink<'_> {
    ghost use Rattle.byte_streams.specs.Sure.{no_faults, told};

    ghost written = { λ s. told s.sink };

    ghost flushed = { λ s. s.sink.flushed };

    ghost faults = { λ _. no_faults };

    fn write(&mut self, piece: &[u8]) -> Result<usize, Failed> {
        let written = self.sink.write(piece)?;
        self.written.fetch_add(written as u64, Ordering::SeqCst);
        Ok(written)
    }

    fn flush(&mut self) -> Result<(), Failed> {
        self.sink.flush()
    }
}

// A source in memory that gives a byte a read, and notes at each how many bytes the sink has.
#[derive(Drop)]
struct NotingSource<'a> {
    source: SureSource,
    written: &'a AtomicU64,
    reads: usize,
    noted: Vec<u64>,
}

impl Source for NotingSource<'_> {
    ghost use Rattle.std.specs.Prelude.{Some};
    ghost use Rattle.byte_streams.specs.Sure.{no_faults};

    ghost left = { λ s. Some s.source.left };

    ghost faults = { λ _. no_faults };

    fn read(&mut self, into: &mut [u8]) -> Result<usize, Failed> {
        if let Some(noted) = self.noted.get_mut(self.reads) {
            *noted = self.written.load(Ordering::SeqCst);
        }
        self.reads = self.reads.saturating_add(1);
        self.source.read(into)
    }
}

// What a run writes, and how much of it was there at each read.
fn noted_run<R: Threads + Sync>(
    rt: &R,
    alloc: Global,
    words: &str,
    input: &[u8],
) -> Result<(Vec<u8>, Vec<u64>), AllocError> {
    let words = words_of(alloc, words)?;
    let written = AtomicU64::new(0);
    let mut source = NotingSource {
        source: SureSource::new(input.to_vec(alloc)?, 1),
        written: &written,
        reads: 0,
        noted: vec![in alloc; 0; input.len()]?,
    };
    let mut sink = CountedSink {
        sink: SureSink::new(alloc, 16_384, 4096)?,
        written: &written,
    };
    let _status = run(rt, alloc, &words, &mut source, &mut sink, &Open);
    Ok((sink.sink.bytes().to_vec(alloc)?, source.noted))
}

// A line of a stream with the worked alert, and one with dots that decide the start in front of them.
fn stream(alloc: Global) -> Result<Vec<u8>, AllocError> {
    let mut input = Vec::new(alloc);
    for dots in [20, 1_600] {
        let heard = line(alloc, &ALERT_SLOTS, &Row { dots, ..WHOLE })?;
        input.push(b's')?;
        input.extend_from_slice(heard.strip_prefix(b"r").unwrap_or(&heard))?;
    }
    Ok(input)
}

const ALERT: &str = "alert from=338040079 nature=106 pos=1423108312 time=2019 then=100\n";

const SENTENCE: &str = "$CDDSC,12,3380400790,12,06,00,1423108312,2019,,,S,*2F\r\n";

const SENT: &str = "0 send 5 alert from=338040079 nature=106 pos=9999999999 time=8888 then=100\n";

const SHIP: &[u8] =
    b"station ship 338040079\nbase 0\n0 delay 210000\n0 alert nature=106 then=100\n";

const BOTH: &[u8] =
    b"station ship 338040079\nstation coast 002241022 mf\nbase 0\ns 0 delay 210000\ns 0 alert nature=106 then=100\n";

// At the read after these lines the sink has what they give, whatever lines come then.
fn is_written_before<R: Threads + Sync>(
    rt: &R,
    alloc: Global,
    words: &str,
    front: &[u8],
    want: &[u8],
) -> Result<bool, AllocError> {
    let mut input = front.to_vec(alloc)?;
    input.extend_from_slice(b"#\n")?;
    let (text, noted) = noted_run(rt, alloc, words, &input)?;
    let before = noted.get(front.len()).copied();
    Ok(text.starts_with(want) && before == Some(want.len() as u64))
}

// A comment follows what is read: the read after the first lines is made for it.
#[test]
fn text_is_written_before_each_read(rt: HostRuntime) -> Result<(), Fail> {
    let alloc = rt.alloc();
    let (encoded, _) = noted_run(&rt, alloc, "dsc encode", ALERT.as_bytes())?;
    assert!(rt; encoded.starts_with(b"r "));
    let heard = two_damaged(alloc)?;
    let stream = stream(alloc)?;
    let told = format!(in alloc; "told g0 {ALERT}")?;
    let captured = format!(in alloc; "at 20 g0 reported {ALERT}")?;
    let exchanged = format!(in alloc; "s {SENT}")?;
    let rows: [(&str, &[u8], &[u8]); 7] = [
        ("dsc encode", ALERT.as_bytes(), &encoded),
        ("dsc sentences", ALERT.as_bytes(), SENTENCE.as_bytes()),
        ("dsc watch", &heard, told.as_bytes()),
        ("dsc watch --workers 2", &heard, told.as_bytes()),
        ("dsc capture", &stream, captured.as_bytes()),
        ("dsc replay", SHIP, SENT.as_bytes()),
        ("dsc exchange", BOTH, exchanged.as_bytes()),
    ];
    for (words, front, want) in rows {
        let is_written = is_written_before(&rt, alloc, words, front, want)?;
        assert!(rt; is_written, "{words}");
    }
    Ok(())
}

// A reception that comes alone is told before the next read, also where others are open: each of these lines ends a
// batch.
#[test]
fn each_reception_is_told_before_the_next_read(rt: HostRuntime) -> Result<(), Fail> {
    let alloc = rt.alloc();
    let whole = line(alloc, &ALERT_SLOTS, &WHOLE)?;
    let mut input = Vec::new(alloc);
    for group in 0..3u32 {
        input.extend_from_slice(&crate::tests::receptions::of_group(alloc, group, &whole)?)?;
    }
    let one = format!(in alloc; "told g0 {ALERT}")?.len() as u64;
    for words in ["dsc watch", "dsc watch --workers 64"] {
        let (_text, noted) = noted_run(&rt, alloc, words, &input)?;
        let behind = input.len() / 3;
        assert_eq!(rt; noted.get(behind).copied(), Some(one), "{words}");
        assert_eq!(rt; noted.get(2 * behind).copied(), Some(2 * one), "{words}");
    }
    Ok(())
}
