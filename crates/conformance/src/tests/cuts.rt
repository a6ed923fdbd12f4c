//! The worked alert's line cut after each of its bytes. What is wanted comes from a plain program of the definitions.

use crate::tests::receptions::{REPORTED, Row, Run, WHOLE, compare, compare_runs, line, sign};
use dsc_symbols::worked::ALERT_SLOTS;
use std::alloc::{AllocError, Global};
use std::test::Fail;
use ten_unit::word;

// The list of the worked alert up to its error check character.
const LIST: [u8; 18] = [
    112, 112, 33, 80, 40, 7, 90, 106, 14, 23, 10, 83, 12, 20, 19, 100, 127, 78,
];

// The least origin is 150 elements in front of a reception.
const IN_FRONT: usize = 150;

// Whether the slot at this lead shows this symbol: its ten elements are there, all of them.
fn shows(elements: &[u8], lead: usize, slot: usize, symbol: u8) -> bool {
    let start = lead.saturating_add(slot.saturating_mul(10));
    let Some(heard) = elements.get(start..start.saturating_add(10)) else {
        return false;
    };
    let sent = word(symbol % 128);
    heard.iter().zip(sent).all(|(a, b)| *a == sign(b))
}

// Whether slots 0 to 15 show enough of the phasing sequence at this lead: two DX and an RX symbol, an RX more than
// that, or three RX symbols.
fn is_phased(elements: &[u8], lead: usize) -> bool {
    let (mut dx, mut rx) = (0u8, 0u8);
    for k in 0u8..6 {
        if shows(elements, lead, 2 * usize::from(k), 125) {
            dx = dx.saturating_add(1);
        }
    }
    for k in 0u8..8 {
        if shows(elements, lead, 2 * usize::from(k) + 1, 111 - k) {
            rx = rx.saturating_add(1);
        }
    }
    (dx >= 2 && rx >= 1) || (rx >= 2 && dx >= 1) || rx >= 3
}

// The slot of a place among those that begin with this one: each second slot is of the same kind.
fn slot(first: usize, place: usize) -> usize {
    place.saturating_mul(2).saturating_add(first)
}

// The answer to a part of the alert, by the definitions: at the least phased origin each place shows what its two slots
// show, and the first place of the list that shows nothing is missing.
fn answer(alloc: Global, heard: &[u8]) -> Result<Vec<u8>, AllocError> {
    let mut elements = vec![in alloc; b'-'; IN_FRONT]?;
    elements.extend_from_slice(heard)?;
    let mut place = 0usize;
    if let Some(lead) = (0..elements.len()).find(|lead| is_phased(&elements, *lead)) {
        for symbol in LIST {
            let (dx, rx) = (slot(12, place), slot(17, place));
            if !shows(&elements, lead, dx, symbol) && !shows(&elements, lead, rx, symbol) {
                break;
            }
            place = place.saturating_add(1);
        }
    }
    if place == LIST.len() {
        return Vec::from_slice(alloc, REPORTED.as_bytes());
    }
    let missing = format!(in alloc; "g0 missing {place}\n")?;
    Vec::from_slice(alloc, missing.as_bytes())
}

#[test]
fn a_line_cut_after_each_byte(rt: HostRuntime) -> Result<(), Fail> {
    let alloc = rt.alloc();
    let text = line(alloc, &ALERT_SLOTS, &Row { dots: 0, ..WHOLE })?;
    let (mut cuts, mut reported) = (0u32, 0u32);
    // After `r` and its blank: an element, or all of them.
    for end in 3..text.len() {
        let want = answer(alloc, text.get(2..end).unwrap_or(b""))?;
        let is_whole = want.as_slice() == REPORTED.as_bytes();
        let input = Vec::from_slice(alloc, text.get(..end).unwrap_or(b""))?;
        compare(&rt, alloc, "dsc join", input, &want, u8::from(!is_whole))?;
        cuts = cuts.saturating_add(1);
        reported = reported.saturating_add(u32::from(is_whole));
    }
    // All 520 elements; and the check is known from its DX copy, after the 470th.
    assert_eq!(rt; cuts, 520);
    assert_eq!(rt; reported, 51);
    Ok(())
}

// The first bytes of a line of a reception, worked by hand.
const SHORT: [Run; 3] = [
    ("", "", 0),
    ("r", "g0 missing 0\n", 1),
    ("r ", "dsc: line 1 column 3\n", 3),
];

#[test]
fn inputs_at_the_edges(rt: HostRuntime) -> Result<(), Fail> {
    let alloc = rt.alloc();
    compare_runs(&rt, alloc, "dsc join", &SHORT)?;
    let mut evidence = Vec::from_slice(alloc, b"e")?;
    for place in 0..64 {
        evidence.extend_from_slice(format!(in alloc; " {place}:0 {place}:127")?.as_bytes())?;
    }
    compare(&rt, alloc, "dsc join", evidence, b"g0 differ 0 0 127\n", 1)?;
    let mut elements = Vec::from_slice(alloc, b"r ")?;
    for _ in 0..4198 {
        elements.push(b'Y')?;
    }
    compare(&rt, alloc, "dsc join", elements, b"g0 missing 0\n", 1)
}

// As many lines as an input may have, and one more.
#[test]
fn lines_at_the_limit(rt: HostRuntime) -> Result<(), Fail> {
    let alloc = rt.alloc();
    for words in [
        "dsc join",
        "dsc evidence",
        "dsc encode",
        "dsc sentences",
        "dsc replay",
        "dsc capture",
        "dsc exchange",
        "dsc watch",
        "dsc book",
    ] {
        for (lines, want, status) in [
            (65_536, "", 0),
            (65_537, "dsc: line 65537 too many lines\n", 7),
        ] {
            let mut input = Vec::new(alloc);
            for _ in 0..lines {
                input.extend_from_slice(b"#\n")?;
            }
            compare(&rt, alloc, words, input, want.as_bytes(), status)?;
        }
    }
    Ok(())
}
