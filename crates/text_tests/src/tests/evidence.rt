//! Lines of evidence.
use input_lines::{put_evidence, put_evidence_line};
use slot_evidence::Sheet;

#[test]
fn pairs_stand_by_rising_place(rt: HostRuntime) {
    let mut sheet = Sheet::empty();
    assert_eq!(rt; put_evidence(0, &sheet).as_slice(), b"e g0".as_slice());
    for (place, symbol) in [(63, 127), (0, 120), (8, 22), (8, 17), (8, 14), (19, 0)] {
        sheet.add(place, symbol);
    }
    assert_eq!(rt;
        put_evidence(4_294_967_295, &sheet).as_slice(),
        b"e g4294967295 0:120 8:14 8:22 19:0 63:127".as_slice()
    );
    assert_eq!(rt;
        put_evidence_line(9, &sheet).as_slice(),
        b"e g9 0:120 8:14 8:22 19:0 63:127\n".as_slice()
    );
}

#[test]
fn the_longest_text_fits(rt: HostRuntime) {
    let mut sheet = Sheet::empty();
    for place in 0..64u8 {
        sheet.add(place, 100);
        sheet.add(place, 127);
    }
    assert_eq!(rt;
        put_evidence(4_294_967_295, &sheet).len(),
        13 + 10 * 12 + 54 * 14
    );
}
