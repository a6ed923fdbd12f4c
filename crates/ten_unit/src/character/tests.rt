//! Words by hand, and every ten elements.
use super::*;
use crate::plain;

// Characters of the ten-unit code, as the table of the Recommendation gives them.
const WORDS: [(u8, &str); 12] = [
    (0, "BBBBBBBYYY"),
    (7, "YYYBBBBYBB"),
    (14, "BYYYBBBYBB"),
    (22, "BYYBYBBYBB"),
    (33, "YBBBBYBYBY"),
    (78, "BYYYBBYBYY"),
    (100, "BBYBBYYYBB"),
    (108, "BBYYBYYBYY"),
    (112, "BBBBYYYYBB"),
    (125, "YBYYYYYBBY"),
    (126, "BYYYYYYBBY"),
    (127, "YYYYYYYBBB"),
];

#[test]
fn words_and_their_symbols(rt: HostRuntime) {
    for (number, text) in WORDS {
        let elements = word(number % 128);
        for (element, sign) in elements.iter().zip(text.chars()) {
            let want = if sign == 'Y' { Element::Y } else { Element::B };
            assert!(rt; *element == want, "an element of the word of {number}");
        }
        assert_eq!(rt; symbol(&elements), Some(number));
    }
}

#[test]
fn no_word_has_no_symbol(rt: HostRuntime) {
    let mut lost = word(112);
    lost[3] = Element::Lost;
    assert_eq!(rt; symbol(&lost), None);
    let mut one_count_wrong = word(112);
    one_count_wrong[9] = Element::Y;
    assert_eq!(rt; symbol(&one_count_wrong), None);
    let mut one_y_turned = word(112);
    one_y_turned[4] = Element::B;
    assert_eq!(rt; symbol(&one_y_turned), None);
    let mut two_b_turned = word(112);
    two_b_turned[0] = Element::Y;
    two_b_turned[9] = Element::Y;
    assert_eq!(rt; symbol(&two_b_turned), None);
}

#[test]
fn every_ten_elements(rt: HostRuntime) {
    for number in 0..1024u16 {
        let mut elements = [Element::B; 10];
        for i in 0..10usize {
            if number >> i & 1 == 1 {
                elements[i] = Element::Y;
            }
        }
        assert_eq!(rt;
            symbol(&elements),
            plain::symbol(&elements),
            "number {number}"
        );
        elements[number as usize % 10] = Element::Lost;
        assert_eq!(rt; symbol(&elements), None, "number {number} with one lost");
    }
}
