//! The lead of a reception that begins with dots and an undamaged start of a call.
ghost use Rattle.std.specs.Prelude.{◌≡◌, ℕ, ◌+◌, ◌<◌, ◌≤◌, true, IfSome};
ghost use Rattle.std.specs.Int.{bit_at};
ghost use Rattle.ten_unit.specs.Word.{element};
ghost use Rattle.ten_unit.specs.declared.character.Element.{Element};
ghost use Rattle.ten_unit.specs.inside.Marks.{IsPlanes};
ghost use Rattle.phasing.specs.Origin as sequence;
ghost use Rattle.phasing.specs.inside.Intact.{IsStartsEnd};

use crate::reception::LEAD_OF_FIRST;
use crate::window::Elements;
use ten_unit::{ELEMENTS, Planes};

/// The elements of six slots.
const SIX_SLOTS: u32 = 6 * ELEMENTS as u32;

/// Dots as bits, of which the first is B. Bits are 1 for Y and 0 for B, and the lowest is of the first element.
const DOTS: u64 = 0xAAAA_AAAA_AAAA_AAAA;

/// The words of slots 0 to 5 of a call as bits. Ten digits are a word, and the last ten are the first slot's.
const SLOTS_0_TO_5: u64 = 0b0101101101_1001111101_0101101110_1001111101_1001101111_1001111101;

/// Those of slots 6 to 11.
const SLOTS_6_TO_11: u64 = 0b1101101010_1001111101_0101101011_1001111101_1101101100_1001111101;

/// Those of slots 12 to 15, two of which have the format specifier: of each one.
const SLOTS_12_TO_15: [u64; 5] = [
    0b0011101000_0011110000_1101101001_0011110000,
    0b0011101000_1101110100_1101101001_1101110100,
    0b0011101000_1101100110_1101101001_1101100110,
    0b0011101000_1101110010_1101101001_1101110010,
    0b0011101000_1101111000_1101101001_1101111000,
];

/// Whether the first elements of 64, so many of them, are those of these bits.
#[inline(always)]
fn agree(planes: Planes, bits: u64, count: u32) -> bool
    requires { count < 64 }
    ensures { (base : ℕ) (e : ℕ → Element) → result ≡ true → IsPlanes planes.y planes.b base e
        → (i : ℕ) → i < count → e (base + i) ≡ element (bit_at bits i) }
{
    let mask = (1 << count) - 1;
    (planes.y & mask == bits & mask) & (planes.b & mask == !bits & mask)
}

/// Whether the first elements are the words of slots 12 to 15 of a call.
#[inline(always)]
fn ends_start(planes: Planes) -> bool
    ensures { (base : ℕ) (e : ℕ → Element) → result ≡ true → IsPlanes planes.y planes.b base e → IsStartsEnd e base }
{
    for number in 0..5 {
        if agree(planes, SLOTS_12_TO_15[number], 40) {
            return true;
        }
    }
    false
}

/// The lead of the origin of a reception that begins with 1 to 63 dots and with slots 0 to 15 of a call, all without a
/// wrong element (ITU-R M.493, dot pattern and phasing sequence). `None` says nothing. It searches no other lead, since
/// of such a reception none before the dots' end is phased.
#[inline(never)]
pub(crate) fn intact_lead<E: Elements>(e: E) -> Option<u32>
    ensures { IfSome result (λ lead. sequence.lead_of (E.list e) ≡ Some lead) }
{
    let first = e.planes_from(0);
    // The last dot and the first element of slot 0 are the first Y next to a Y.
    let dots = (first.y & first.y >> 1).trailing_zeros() + 1;
    if dots > 63 || !agree(first, DOTS >> (dots % 2), dots) {
        return None;
    }
    let slot_6 = (dots + SIX_SLOTS) as usize;
    let slot_12 = (dots + 2 * SIX_SLOTS) as usize;
    let early = agree(e.planes_from(dots as usize), SLOTS_0_TO_5, SIX_SLOTS);
    let later = agree(e.planes_from(slot_6), SLOTS_6_TO_11, SIX_SLOTS);
    if early & later & ends_start(e.planes_from(slot_12)) {
        return Some(LEAD_OF_FIRST + dots);
    }
    None
}
