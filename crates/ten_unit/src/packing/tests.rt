//! The symbols of 64 elements at once.
use super::*;
use crate::plain;

/// The words of 112, 33, 80, 40, 127 and 0 from element 2 on, with one element of 80 lost.
const SIGNS: &[u8; 64] = b"YBBBBBYYYYBBYBBBBYBYBYBBBB.BYYBYBBBYBYBYBYYYYYYYYBBBBBBBBBBYYYBY";

#[test]
fn symbols_of_64_elements(rt: HostRuntime) {
    let mut block = [Element::Lost; 64];
    for i in 0..64 {
        block[i] = match SIGNS[i] {
            b'Y' => Element::Y,
            b'B' => Element::B,
            _ => Element::Lost,
        };
    }
    let planes = pack_elements(&block);
    assert_eq!(rt; symbol_at(&planes, 2), 112);
    assert_eq!(rt; symbol_at(&planes, 22), 128);
    for (first, ten) in block.windows(10).enumerate() {
        let want = ten.first_chunk::<10>().and_then(|ten| plain::symbol(ten));
        assert_eq!(rt;
            symbol_at(&planes, first as u32),
            want.unwrap_or(128),
            "from {first} on"
        );
    }
}
