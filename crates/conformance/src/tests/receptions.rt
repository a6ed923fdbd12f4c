//! Receptions as lines, and runs over them: what the tests of joins share.

use dsc_cmd::{SureSink, SureSource, run};
use dsc_symbols::worked::{ALERT_SLOTS, LOST_BUT_PLACE_7, LOST_DX_AND_PLACE_7};
use receiver_pool::Open;
use std::alloc::{AllocError, Global};
use std::process::Abort;
use std::test::Fail;
use std::thread::Threads;
use ten_unit::{Element, word};

pub(crate) const REPORTED: &str =
    "g0 reported alert from=338040079 nature=106 pos=1423108312 time=2019 then=100\n";

// A reception: so many elements of the dot pattern in front, the slots from the first on and before the last, some of
// them lost and some of them another symbol.
#[derive(Clone, Copy)]
pub(crate) struct Row {
    pub(crate) dots: usize,
    pub(crate) first: usize,
    pub(crate) last: usize,
    pub(crate) lost: &'static [usize],
    pub(crate) other: &'static [(usize, u8)],
}

// A whole reception after 20 dots: rows say what differs.
pub(crate) const WHOLE: Row = Row {
    dots: 20,
    first: 0,
    last: usize::MAX,
    lost: &[],
    other: &[],
};

// A whole reception with another symbol in both copies of a place.
pub(crate) const DIFFERENT: Row = Row {
    other: &[(26, 120), (31, 120)],
    ..WHOLE
};

// A reception of the RX copies alone, but for that of place 7.
pub(crate) const WITHOUT_DX: Row = Row {
    lost: &LOST_DX_AND_PLACE_7,
    ..WHOLE
};

// A reception that shows three DX phasing symbols and nothing else.
pub(crate) const THREE_DX: Row = Row {
    last: 16,
    lost: &[1, 3, 5, 6, 7, 8, 9, 10, 11, 12, 13, 14, 15],
    ..WHOLE
};

pub(crate) fn sign(element: Element) -> u8 {
    match element {
        Element::Y => b'Y',
        Element::B => b'B',
        Element::Lost => b'-',
    }
}

fn append_slot(text: &mut Vec<u8>, row: &Row, slot: usize, sent: u8) -> Result<(), AllocError> {
    if row.lost.contains(&slot) {
        text.extend_from_slice(b"----------")?;
        return Ok(());
    }
    let mut symbol = sent;
    for (place, shown) in row.other {
        if *place == slot {
            symbol = *shown;
        }
    }
    for element in word(symbol % 128) {
        text.push(sign(element))?;
    }
    Ok(())
}

// The line of a reception of these slots.
pub(crate) fn line(alloc: Global, slots: &[u8], row: &Row) -> Result<Vec<u8>, AllocError> {
    let mut text = Vec::from_slice(alloc, b"r ")?;
    for k in 0..row.dots {
        text.push(if (row.dots - k) % 2 == 1 { b'Y' } else { b'B' })?;
    }
    for (slot, sent) in slots.iter().enumerate() {
        if row.first <= slot && slot < row.last {
            append_slot(&mut text, row, slot, *sent)?;
        }
    }
    text.push(b'\n')?;
    Ok(text)
}

// The traffic file of a ship that receives a whole alert of group 0, with these events after it.
pub(crate) fn heard_at_a_ship(alloc: Global, events: &str) -> Result<Vec<u8>, AllocError> {
    let mut file = Vec::from_slice(alloc, b"station ship 338158137\nbase 0\n")?;
    file.extend_from_slice(&line(alloc, &ALERT_SLOTS, &WHOLE)?)?;
    file.extend_from_slice(events.as_bytes())?;
    Ok(file)
}

// The first or the second of two receptions of one alert, neither of which reports it alone.
pub(crate) fn damaged(alloc: Global, is_second: bool) -> Result<Vec<u8>, AllocError> {
    let late = Row {
        lost: &LOST_BUT_PLACE_7,
        ..WHOLE
    };
    line(
        alloc,
        &ALERT_SLOTS,
        if is_second { &late } else { &WITHOUT_DX },
    )
}

// Both of them.
pub(crate) fn two_damaged(alloc: Global) -> Result<Vec<u8>, AllocError> {
    let mut input = damaged(alloc, false)?;
    input.extend_from_slice(&damaged(alloc, true)?)?;
    Ok(input)
}

// The line of a reception, in which it is one of this group.
pub(crate) fn of_group(alloc: Global, group: u32, line: &[u8]) -> Result<Vec<u8>, AllocError> {
    let mut text = Vec::from_slice(alloc, format!(in alloc; "r g{group}")?.as_bytes())?;
    text.extend_from_slice(line.strip_prefix(b"r").unwrap_or(line))?;
    Ok(text)
}

// The words of a command line, parted by blanks.
pub(crate) fn words_of(alloc: Global, text: &str) -> Result<Vec<String>, AllocError> {
    let mut words = Vec::new(alloc);
    for word in text.split_whitespace() {
        words.push(String::from_str(alloc, word)?)?;
    }
    Ok(words)
}

// More bytes than a run of these tests writes.
const ROOM: usize = 1_000_000;

// What a run over streams in memory wrote, which hand over a few bytes at a time, and its status.
pub(crate) fn joined<R: Threads + Sync>(
    rt: &R,
    alloc: Global,
    words: &str,
    input: Vec<u8>,
) -> Result<(Vec<u8>, u8), AllocError> {
    let words = words_of(alloc, words)?;
    let mut source = SureSource::new(input, 7);
    let mut sink = SureSink::new(alloc, ROOM, 5)?;
    let status = run(rt, alloc, &words, &mut source, &mut sink, &Open);
    Ok((sink.bytes().to_vec(alloc)?, status.number()))
}

// Runs a command over these bytes, and compares what it wrote, and its status.
pub(crate) fn compare<R: Threads + Sync + Abort>(
    rt: &R,
    alloc: Global,
    words: &str,
    input: Vec<u8>,
    want: &[u8],
    status: u8,
) -> Result<(), Fail> {
    let (written, ended) = joined(rt, alloc, words, input)?;
    assert_eq!(rt; written.as_slice(), want, "{words}");
    assert_eq!(rt; ended, status, "{words}");
    Ok(())
}

// What is read, what is written, and the status.
pub(crate) type Run = (&'static str, &'static str, u8);

// Runs a command over each of these texts, and compares what it writes, and its status.
pub(crate) fn compare_runs<R: Threads + Sync + Abort>(
    rt: &R,
    alloc: Global,
    words: &str,
    runs: &[Run],
) -> Result<(), Fail> {
    for (input, want, status) in runs {
        let input = Vec::from_slice(alloc, input.as_bytes())?;
        compare(rt, alloc, words, input, want.as_bytes(), *status)?;
    }
    Ok(())
}

// What a reception is, which of its slots are lost, which show another symbol, and what is answered.
pub(crate) type Damaged = (
    &'static str,
    &'static [usize],
    &'static [(usize, u8)],
    &'static str,
);

// Joins receptions of these slots, each alone, and compares what is answered.
pub(crate) fn compare_receptions<R: Threads + Sync + Abort>(
    rt: &R,
    alloc: Global,
    slots: &[u8],
    rows: &[Damaged],
) -> Result<(), Fail> {
    for row in rows {
        let (name, lost, other, want) = *row;
        let damaged = Row {
            lost,
            other,
            ..WHOLE
        };
        let heard = line(alloc, slots, &damaged)?;
        let (written, status) = joined(rt, alloc, "dsc join", heard)?;
        assert_eq!(rt; written.as_slice(), want.as_bytes(), "{name}");
        let is_reported = want.starts_with("g0 reported");
        assert_eq!(rt; status, u8::from(!is_reported), "{name}");
    }
    Ok(())
}
