//! Slots of an alert, and places of slots.
use super::*;
use dsc_symbols::worked::{ALERT, ALERT_SLOTS};

#[test]
fn the_slots_of_an_alert(rt: HostRuntime) {
    assert_eq!(rt; on_air(&ALERT).as_slice(), ALERT_SLOTS.as_slice());
}

#[test]
fn places_of_slots(rt: HostRuntime) {
    for (slot, place) in [
        (13, None),
        (14, Some(1)),
        (17, Some(0)),
        (138, Some(63)),
        (140, None),
        (143, Some(63)),
        (145, None),
    ] {
        assert_eq!(rt; place_of(slot), place, "slot {slot}");
    }
    assert_eq!(rt; place_of(dx_slot(63)), Some(63));
    assert_eq!(rt; place_of(rx_slot(0)), Some(0));
}
