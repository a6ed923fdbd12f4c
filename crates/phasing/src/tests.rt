//! Origins by hand, and the fast search compared with the plain one.
use crate::{
    Elements, FRONT_INDICES, LONGEST, Reception, first_phased, lead, origin, phased, plain,
    search_front, slot_symbol, transmission,
};
use dsc_symbols::phasing::RX_3;
use dsc_symbols::worked::ALERT_SLOTS;
use std::alloc::{AllocError, Global};
use std::test::Fail;
use ten_unit::{Element, word};

/// So many elements of the dot pattern's end, and then these slots, of which some are lost.
fn received(
    alloc: Global,
    dots: u8,
    slots: &[u8],
    lost: &[usize],
) -> Result<Vec<Element>, AllocError> {
    let mut elements = Vec::new(alloc);
    for k in 0..dots {
        elements.push(if (dots - k) % 2 == 1 {
            Element::Y
        } else {
            Element::B
        })?;
    }
    for (slot, symbol) in slots.iter().enumerate() {
        if lost.contains(&slot) {
            elements.extend_from_slice(&[Element::Lost; 10])?;
        } else {
            elements.extend_from_slice(&word(*symbol % 128))?;
        }
    }
    Ok(elements)
}

#[test]
fn an_alert_behind_dots(rt: HostRuntime) -> Result<(), Fail> {
    let elements = received(rt.alloc(), 7, &ALERT_SLOTS, &[])?;
    assert_eq!(rt; elements.len(), 527);
    assert_eq!(rt; origin(elements.as_slice()), Some(7));
    assert_eq!(rt; lead(elements.as_slice()), Some(157));
    for (slot, symbol) in ALERT_SLOTS.iter().enumerate() {
        assert_eq!(rt;
            slot_symbol(&elements, 157, slot as u16),
            Some(*symbol),
            "slot {slot}"
        );
    }
    assert_eq!(rt; slot_symbol(&elements, 157, 52), None);
    Ok(())
}

#[test]
fn an_alert_from_slot_9_on(rt: HostRuntime) -> Result<(), Fail> {
    let elements = received(rt.alloc(), 0, &ALERT_SLOTS[9..], &[])?;
    assert_eq!(rt; elements.len(), 430);
    assert_eq!(rt; origin(elements.as_slice()), Some(-90));
    assert_eq!(rt; slot_symbol(&elements, 60, 8), None);
    assert_eq!(rt; slot_symbol(&elements, 60, 9), Some(107));
    assert!(rt; phased(&elements, -90));
    assert!(rt; !phased(&elements, -89));
    assert!(rt; !phased(&elements, 1_000_000));
    assert_eq!(rt; first_phased(elements.as_slice()), 430);
    Ok(())
}

#[test]
fn three_dx_alone_are_unphased(rt: HostRuntime) -> Result<(), Fail> {
    let lost = [1, 3, 5, 6, 7, 8, 9, 10, 11, 12, 13, 14, 15];
    let elements = received(rt.alloc(), 20, &ALERT_SLOTS[..16], &lost)?;
    assert_eq!(rt; elements.len(), 180);
    assert_eq!(rt; origin(elements.as_slice()), None);
    Ok(())
}

/// Three slots are the shortest reception with an origin.
#[test]
fn three_slots_alone_are_phased(rt: HostRuntime) -> Result<(), Fail> {
    let elements = received(rt.alloc(), 0, &ALERT_SLOTS[..3], &[])?;
    assert_eq!(rt; elements.len(), 30);
    let three = elements.first_chunk::<30>().ok_or("short")?;
    assert_eq!(rt; origin(&three[..30]), Some(0));
    assert_eq!(rt; origin(&three[..29]), None);
    Ok(())
}

#[test]
fn a_short_dot_pattern_and_words(rt: HostRuntime) {
    let elements = transmission(&[125, 111, 0], false);
    assert_eq!(rt; elements.len(), 50);
    for pair in elements[..20].chunks_exact(2) {
        assert_eq!(rt; pair, [Element::B, Element::Y].as_slice());
    }
    assert_eq!(rt; &elements[20..30], word(125).as_slice());
    assert_eq!(rt; &elements[40..50], word(0).as_slice());
}

#[test]
fn a_long_dot_pattern(rt: HostRuntime) {
    let elements = transmission(&[125], true);
    assert_eq!(rt; elements.len(), 210);
    assert_eq!(rt; &elements[198..200], [Element::B, Element::Y].as_slice());
    assert_eq!(rt; &elements[200..], word(125).as_slice());
}

/// Whether the search and the definition's program find one lead and one origin.
fn is_found_alike(e: &[Element]) -> bool {
    e.len() <= LONGEST && lead(e) == plain::lead(e) && origin(e) == plain::origin(e)
}

/// Whether this is the origin.
fn has_origin(e: &[Element], o: i32) -> bool {
    e.len() <= LONGEST && origin(e) == Some(o)
}

/// Whether the search from the first element on and the test of one origin after another find the same.
fn is_first_alike(e: &[Element]) -> bool {
    if e.len() > LONGEST {
        return false;
    }
    let first = first_phased(e) as i32;
    (0..e.len() as i32).all(|o| o > first || phased(e, o) == (o == first))
}

/// Whether the search of a front and the test of one origin after another find the same.
fn is_front_alike(e: &[Element]) -> bool {
    if e.len() > LONGEST {
        return false;
    }
    let front = search_front(e);
    front.begins == phased(e, 0)
        && (1..FRONT_INDICES as i32).all(|o| o > front.next as i32
            || phased(e, o) == (o == front.next as i32))
}

/// Two slots before its true origin it has five right DX symbols, and a right RX one.
#[test]
fn rx_3_in_slot_7_is_an_earlier_origin(rt: HostRuntime) -> Result<(), Fail> {
    let mut slots = ALERT_SLOTS;
    slots[7] = RX_3;
    let elements = received(rt.alloc(), 20, &slots, &[])?;
    assert!(rt; has_origin(elements.as_slice(), 0));
    assert!(rt; is_found_alike(elements.as_slice()));
    Ok(())
}

/// An alert after dots, which begins later and later: its lead is each from 350 down to 0, and so at each edge of a
/// block. Then one that ends earlier and earlier, from 720 elements down to none.
#[test]
fn each_lead_and_each_length(rt: HostRuntime) -> Result<(), Fail> {
    let elements = received(rt.alloc(), 200, &ALERT_SLOTS, &[])?;
    for begin in 0..=350 {
        let late = elements.get(begin..).ok_or("short")?;
        assert!(rt; is_found_alike(late), "from {begin} on");
        assert!(rt; is_front_alike(late), "from {begin} on");
    }
    for end in 0..=elements.len() {
        assert!(rt; is_found_alike(&elements[..end]), "up to {end}");
    }
    Ok(())
}

/// So many elements, of which one in sixteen is lost, by numbers that look random.
fn noise(alloc: Global, count: u32, mut seed: u32) -> Result<Vec<Element>, AllocError> {
    let mut elements = Vec::new(alloc);
    for _element in 0..count {
        seed = seed.wrapping_mul(1664525).wrapping_add(1013904223);
        elements.push(match seed / 65536 % 16 {
            0 => Element::Lost,
            1 | 3 | 5 | 7 | 9 | 11 | 13 => Element::B,
            _ => Element::Y,
        })?;
    }
    Ok(elements)
}

/// Two transmissions after noise, in which most phasing slots are lost, each time others.
#[test]
fn two_alerts_in_noise(rt: HostRuntime) -> Result<(), Fail> {
    let mut firsts = 0u32;
    for turn in 0..200u32 {
        let seed = turn.wrapping_mul(2654435761);
        let losses = seed | seed.wrapping_mul(2654435761);
        let mut lost = Vec::new(rt.alloc());
        for slot in 0..16usize {
            if losses >> slot & 1 == 1 {
                lost.push(slot)?;
            }
        }
        let mut elements = noise(rt.alloc(), seed / 65536 % 256, seed)?;
        elements.extend_from_slice(&received(rt.alloc(), 20, &ALERT_SLOTS[..16], &lost)?)?;
        elements.extend_from_slice(&received(rt.alloc(), 7, &ALERT_SLOTS, &[0, 3])?)?;
        assert!(rt; is_found_alike(&elements), "turn {turn}");
        assert!(rt; is_first_alike(&elements), "turn {turn}");
        let at = (seed / 65536 % 256) as i32 + 20;
        firsts = firsts.saturating_add(u32::from(has_origin(&elements, at)));
    }
    assert!(rt;
        100 < firsts && firsts < 190,
        "the first one is found in {firsts}"
    );
    assert!(rt; is_found_alike(&noise(rt.alloc(), 4198, 1)?));
    Ok(())
}

/// A reception that grows by one element at a time is at each length the one that is made of the list, bit by bit, up
/// to and over the edges of two blocks.
#[test]
fn elements_one_by_one(rt: HostRuntime) -> Result<(), Fail> {
    let elements = noise(rt.alloc(), 130, 1)?;
    let mut pushed = Reception::new(rt.alloc());
    assert_eq!(rt; pushed.elements(rt.alloc())?.len(), 0);
    for (place, element) in elements.iter().enumerate() {
        pushed.push(*element)?;
        let list = &elements[..=place];
        let made = Reception::of_elements(rt.alloc(), list)?;
        assert_eq!(rt; (&pushed).count(), place + 1);
        assert_eq!(rt; pushed.elements(rt.alloc())?.as_slice(), list);
        assert_eq!(rt; made.elements(rt.alloc())?.as_slice(), list);
        for begin in 0..200 {
            let planes = (&pushed).planes_from(begin);
            assert_eq!(rt; planes, (&made).planes_from(begin), "{place}, {begin}");
            assert_eq!(rt; planes, list.planes_from(begin), "{place}, {begin}");
        }
    }
    Ok(())
}

/// A call that comes element by element, after one that was made of signs.
#[test]
fn a_call_element_by_element(rt: HostRuntime) -> Result<(), Fail> {
    let elements = received(rt.alloc(), 0, &ALERT_SLOTS, &[])?;
    let mut heard = Reception::of_signs(rt.alloc(), b"YB-YBYB")?.ok_or("signs")?;
    for element in elements.iter() {
        heard.push(*element)?;
    }
    assert_eq!(rt; (&heard).count(), 527);
    assert_eq!(rt; lead(&heard), Some(157));
    let list = heard.elements(rt.alloc())?;
    assert_eq!(rt;
        &list[..3],
        [Element::Y, Element::B, Element::Lost].as_slice()
    );
    assert_eq!(rt; &list[7..], elements.as_slice());
    Ok(())
}
