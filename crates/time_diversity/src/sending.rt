//! The symbols of the slots of a list, as they are sent.
ghost use Rattle.std.specs.Prelude.{◌≡◌, ◌+◌, ◌*◌, ◌<◌, ◌≤◌, All, length, take};
ghost use Rattle.time_diversity.specs.OnAir as diversity;

use crate::slots::{FIRST_DX, FIRST_RX};
use arrayvec::ArrayVec;
use dsc_symbols::phasing::{DX, RX_0, RX_1, RX_2, RX_3, RX_4, RX_5, RX_6, RX_7};

/// The phasing symbols in their slots, and 0 in each other one (ITU-R M.493, phasing sequence).
static PHASING: [u8; 144] = [
    DX, RX_7, DX, RX_6, DX, RX_5, DX, RX_4, DX, RX_3, DX, RX_2, 0, RX_1, 0, RX_0, 0, 0, 0, 0, 0, 0,
    0, 0, 0, 0, 0, 0, 0, 0, 0, 0, 0, 0, 0, 0, 0, 0, 0, 0, 0, 0, 0, 0, 0, 0, 0, 0, 0, 0, 0, 0, 0, 0,
    0, 0, 0, 0, 0, 0, 0, 0, 0, 0, 0, 0, 0, 0, 0, 0, 0, 0, 0, 0, 0, 0, 0, 0, 0, 0, 0, 0, 0, 0, 0, 0,
    0, 0, 0, 0, 0, 0, 0, 0, 0, 0, 0, 0, 0, 0, 0, 0, 0, 0, 0, 0, 0, 0, 0, 0, 0, 0, 0, 0, 0, 0, 0, 0,
    0, 0, 0, 0, 0, 0, 0, 0, 0, 0, 0, 0, 0, 0, 0, 0, 0, 0, 0, 0, 0, 0, 0, 0, 0, 0,
];

/// Writes the symbols of all slots of the transmission of a call's list, which has 4 to 64 symbols below 128, one after
/// the other, and answers how many they are: `2L + 12` for `L` characters (ITU-R M.493, phasing sequence and time
/// diversity). Each character is written at once into both of its slots, over a table of the phasing symbols.
#[inline(always)]
pub fn write_on_air(list: &[u8], symbols: &mut [u8; 144]) -> usize
    requires length { (4 ≤ length list.now) × (length list.now ≤ 64) }
    requires symbols { All (λ v. v < 128) list.now }
    ensures slots { take result symbols.new ≡ diversity.on_air list.now }
    ensures length { result ≡ 2 * length list.now + 12 }
    ensures symbols { All (λ v. v < 128) (take result symbols.new) }
{
    *symbols = PHASING;
    for number in 0..list.len() {
        symbols[FIRST_DX as usize + 2 * number] = list[number];
        symbols[FIRST_RX as usize + 2 * number] = list[number];
    }
    2 * list.len() + FIRST_DX as usize
}

/// The symbols of all slots of the transmission of a call's list, which has 4 to 64 symbols below 128: `2L + 12` of
/// them for `L` characters (ITU-R M.493, phasing sequence and time diversity).
pub fn on_air(list: &[u8]) -> ArrayVec<u8, 160>
    requires length { (4 ≤ length list.now) × (length list.now ≤ 64) }
    requires symbols { All (λ v. v < 128) list.now }
    ensures slots { result.items ≡ diversity.on_air list.now }
    ensures length { length result.items ≡ 2 * length list.now + 12 }
    ensures symbols { All (λ v. v < 128) result.items }
{
    let mut symbols = [0; 144];
    let count = write_on_air(list, &mut symbols);
    ArrayVec::try_from(&symbols[..count]).unwrap()
}
