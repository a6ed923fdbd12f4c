//! Facts of receptions by hand, and the reader compared with the plain one.
use crate::{Seen, Sheet, plain, read_sheet};
use dsc_symbols::worked::{ALERT, ALERT_SLOTS};
use std::alloc::{AllocError, Global};
use std::process::Abort;
use std::test::Fail;
use ten_unit::{Element, word};

/// The slots from slot 0 on, of which some are lost.
fn received(alloc: Global, slots: &[u8; 52], lost: &[usize]) -> Result<Vec<Element>, AllocError> {
    let mut elements = Vec::new(alloc);
    for (slot, symbol) in slots.iter().enumerate() {
        let is_lost = lost.contains(&slot);
        let sent = word(*symbol % 128);
        elements.extend_from_slice(&if is_lost { [Element::Lost; 10] } else { sent })?;
    }
    Ok(elements)
}

/// The sheet of these slots.
fn sheet(rt: &impl Abort, alloc: Global, slots: &[u8; 52], lost: &[usize]) -> Result<Sheet, Fail> {
    let elements = received(alloc, slots, lost)?;
    assert_eq!(rt; elements.len(), 520);
    Ok(read_sheet(elements.as_slice()).ok_or("unphased")?)
}

#[test]
fn every_place_of_an_alert(rt: HostRuntime) -> Result<(), Fail> {
    let sheet = sheet(&rt, rt.alloc(), &ALERT_SLOTS, &[])?;
    for (p, character) in ALERT.iter().enumerate() {
        assert_eq!(rt; sheet.at(p as u8), Seen::One(*character), "place {p}");
    }
    assert_eq!(rt; sheet.at(20), Seen::None);
    Ok(())
}

#[test]
fn two_receptions_together(rt: HostRuntime) -> Result<(), Fail> {
    let lost = [
        12, 14, 16, 18, 20, 22, 24, 26, 28, 30, 31, 32, 34, 36, 38, 40, 42, 44, 46, 48, 50,
    ];
    let mut group = sheet(&rt, rt.alloc(), &ALERT_SLOTS, &lost)?;
    assert_eq!(rt; group.at(6), Seen::One(90));
    assert_eq!(rt; group.at(7), Seen::None);
    let mut changed = ALERT_SLOTS;
    changed[28] = 22;
    group.meet(&sheet(&rt, rt.alloc(), &changed, &[])?);
    assert_eq!(rt; group.at(7), Seen::One(106));
    assert_eq!(rt; group.at(8), Seen::Differ(14, 22));
    Ok(())
}

#[test]
fn nothing_from_noise(rt: HostRuntime) -> Result<(), Fail> {
    assert_eq!(rt; read_sheet([Element::Lost; 300].as_slice()), None);
    let mut sheet = Sheet::empty();
    sheet.add(63, 127);
    assert_eq!(rt; sheet.at(62), Seen::None);
    assert_eq!(rt; sheet.at(63), Seen::One(127));
    Ok(())
}

/// An alert twice, with a few elements lost and a few received as Y.
fn noisy(alloc: Global, mut noise: u32) -> Result<Vec<Element>, AllocError> {
    let mut elements = Vec::new(alloc);
    for symbol in ALERT_SLOTS.iter().chain(&ALERT_SLOTS) {
        for element in &word(*symbol % 128) {
            noise = noise.wrapping_mul(1664525).wrapping_add(1013904223);
            elements.push(match noise >> 26 {
                0 => Element::Lost,
                1 => Element::Y,
                _ => *element,
            })?;
        }
    }
    Ok(elements)
}

/// The sheet of a reception, where it has one, after a look that it says what the definitions' program says.
fn compared(rt: &impl Abort, e: &[Element]) -> Sheet {
    assert!(rt; e.len() <= 2000);
    let Some(sheet) = read_sheet(e) else {
        assert!(rt; plain::read_sheet(e).is_none(), "unphased");
        return Sheet::empty();
    };
    let places = plain::read_sheet(e).expect(rt, "phased");
    for p in 0..64u8 {
        assert_eq!(rt; sheet.at(p), places[p as usize], "place {p}");
    }
    sheet
}

#[test]
fn the_definitions_say_the_same(rt: HostRuntime) -> Result<(), Fail> {
    let mut group = Sheet::empty();
    for number in 0..30usize {
        let elements = noisy(rt.alloc(), number as u32)?;
        assert_eq!(rt; elements.len(), 1040);
        let late = compared(&rt, &elements[11 * number..]);
        let ended = compared(&rt, &elements[..480 + number]);
        let mut both = ended;
        both.meet(&late);
        for p in 0..64u8 {
            assert_eq!(rt;
                both.at(p),
                ended.at(p).meet(late.at(p)),
                "place {p} of both"
            );
        }
        group.meet(&both);
    }
    assert_eq!(rt; group.at(63), Seen::None);
    Ok(())
}
