//! Sheets that are joined one by one.
use slot_evidence::{Seen, Sheet, read_sheet};
use ten_unit::Element;

#[test]
fn facts_joined_one_by_one(rt: HostRuntime) {
    let mut sheet = Sheet::empty();
    assert_eq!(rt; sheet.at(0), Seen::None);
    sheet.add(8, 22);
    assert_eq!(rt; sheet.at(8), Seen::One(22));
    sheet.add(8, 14);
    assert_eq!(rt; sheet.at(8), Seen::Differ(14, 22));
    let before = sheet;
    sheet.meet(&before);
    assert_eq!(rt; sheet, before);
    assert_eq!(rt; sheet.at(7), Seen::None);
}

#[test]
fn a_reception_of_no_elements(rt: HostRuntime) {
    let nothing: [Element; 0] = [];
    assert_eq!(rt; read_sheet(nothing.as_slice()), None);
}
