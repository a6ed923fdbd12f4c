//! Starts of streams by hand, and the capture compared with the definition's program.
use crate::{Start, listing, plain};
use dsc_symbols::worked::{ALERT, ALERT_SLOTS};
use slot_evidence::Seen;
use std::alloc::{AllocError, Global};
use std::process::Abort;
use std::test::Fail;
use ten_unit::{Element, word};

/// So many elements, of which one in sixteen is lost, by numbers that look random.
fn add_noise(elements: &mut Vec<Element>, count: u32, mut seed: u32) -> Result<(), AllocError> {
    for _element in 0..count {
        seed = seed.wrapping_mul(1664525).wrapping_add(1013904223);
        elements.push(match seed / 65536 % 16 {
            0 => Element::Lost,
            1 | 3 | 5 | 7 | 9 | 11 | 13 => Element::B,
            _ => Element::Y,
        })?;
    }
    Ok(())
}

/// The 540 elements of the standard alert, so many times.
fn alerts(alloc: Global, count: u32) -> Result<Vec<Element>, AllocError> {
    let mut elements = Vec::new(alloc);
    for _alert in 0..count {
        for _dots in 0..10 {
            elements.extend_from_slice(&[Element::B, Element::Y])?;
        }
        for symbol in &ALERT_SLOTS {
            elements.extend_from_slice(&word(*symbol % 128))?;
        }
    }
    Ok(elements)
}

/// That a start is there, and that its sheet has the alert and nothing else.
fn is_alert(rt: &impl Abort, start: &Start, at: i64) {
    assert_eq!(rt; start.at, at);
    for (p, character) in ALERT.iter().enumerate() {
        assert_eq!(rt; start.sheet.at(p as u8), Seen::One(*character), "place {p}");
    }
    assert_eq!(rt; start.sheet.at(20), Seen::None);
}

#[test]
fn two_alerts_back_to_back(rt: HostRuntime) -> Result<(), Fail> {
    let elements = alerts(rt.alloc(), 2)?;
    assert_eq!(rt; elements.len(), 1080);
    let list = listing::starts_of(rt.alloc(), &elements)?;
    assert_eq!(rt; list.len(), 2);
    is_alert(&rt, &list[0], 20);
    is_alert(&rt, &list[1], 560);
    Ok(())
}

/// A stream that begins in slot 9 has its first start before its first element.
#[test]
fn a_stream_that_begins_late(rt: HostRuntime) -> Result<(), Fail> {
    let elements = alerts(rt.alloc(), 1)?;
    assert_eq!(rt; elements.len(), 540);
    let list = listing::starts_of(rt.alloc(), &elements[110..])?;
    assert_eq!(rt; list.len(), 1);
    is_alert(&rt, &list[0], -90);
    Ok(())
}

/// An alert that breaks off after slot 26, where the next one begins: nothing of the next is a fact of the first.
#[test]
fn a_start_inside_of_another(rt: HostRuntime) -> Result<(), Fail> {
    let whole = alerts(rt.alloc(), 1)?;
    assert_eq!(rt; whole.len(), 540);
    let mut elements = Vec::new(rt.alloc());
    elements.extend_from_slice(whole.get(..290).ok_or("short")?)?;
    elements.extend_from_slice(whole.get(20..).ok_or("short")?)?;
    assert_eq!(rt; elements.len(), 810);
    let list = listing::starts_of(rt.alloc(), &elements)?;
    assert_eq!(rt; list.len(), 2);
    let first = &list[0];
    assert_eq!(rt; first.at, 20);
    assert_eq!(rt; first.sheet.at(7), Seen::One(ALERT[7]));
    assert_eq!(rt; first.sheet.at(8), Seen::None);
    is_alert(&rt, &list[1], 290);
    Ok(())
}

#[test]
fn nothing_from_four_elements(rt: HostRuntime) -> Result<(), Fail> {
    let elements = [Element::Y, Element::B, Element::Y, Element::B];
    assert_eq!(rt; listing::starts_of(rt.alloc(), &elements)?.len(), 0);
    Ok(())
}

/// Alerts that begin and break off anywhere, in noise: a capture has the starts that the definition has.
#[test]
fn the_definition_says_the_same(rt: HostRuntime) -> Result<(), Fail> {
    let whole = alerts(rt.alloc(), 1)?;
    assert_eq!(rt; whole.len(), 540);
    let mut count = 0u64;
    let mut seed = 1u32;
    for turn in 0..1000u32 {
        let mut elements = Vec::new(rt.alloc());
        for _piece in 0..turn % 8 {
            seed = seed.wrapping_mul(1664525).wrapping_add(1013904223);
            let begin = (seed >> 8 & 127) as usize;
            let end = 128 + (seed >> 16 & 255) as usize;
            elements.extend_from_slice(whole.get(begin..end).ok_or("short")?)?;
            add_noise(&mut elements, seed >> 24 & 63, seed)?;
        }
        add_noise(&mut elements, turn % 40 * 40, turn)?;
        assert!(rt; elements.len() <= 10000);
        let list = listing::starts_of(rt.alloc(), &elements)?;
        let want = plain::starts_of(rt.alloc(), &elements)?;
        assert!(rt; list.as_slice() == want.as_slice(), "turn {turn}");
        count = count.saturating_add(list.len() as u64);
    }
    assert!(rt; count > 1000, "{count} starts");
    Ok(())
}
