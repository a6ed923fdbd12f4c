//! Elements as two words of bits, 64 at a time, and the symbol of ten of them.
ghost use Rattle.std.specs.Prelude.{◌≡◌, ℕ, ◌+◌, ◌<◌, ◌≤◌, cond, slice_index_or, slice_index, ◌==◌, true, false, IfSome, IsNone};
ghost use Rattle.std.specs.List.{list_all};
ghost use Rattle.std.specs.Int.{bit_at};
ghost use Rattle.ten_unit.specs.declared.character.Element.{Element};
ghost use Rattle.ten_unit.specs.Signs.{element_of, is_sign};
ghost use Rattle.ten_unit.specs.inside.Codes.{code_of};
ghost use Rattle.ten_unit.specs.inside.Marks.{IsPlanes};
ghost use Rattle.ten_unit.specs.inside.Symbol.{IsSymbol, stretch};

use crate::character::Element;
use crate::table::symbol_of;
use std::simd::prelude::*;

/// 64 elements in a row as bits, bit 0 for the first one: where the element is Y, and where it is B. A lost one is in
/// neither word.
#[derive(Clone, Copy, Debug, PartialEq, Eq)]
pub struct Planes {
    pub y: u64,
    pub b: u64,
}

/// The elements' codes.
fn codes(block: &[Element; 64]) -> [u8; 64]
    ensures { (i : ℕ) → i < 64 → slice_index result i ≡ code_of (slice_index_or block.now i Element.Lost) }
{
    let mut codes = [0; 64];
    for i in 0..64 {
        codes[i] = block[i] as u8;
    }
    codes
}

/// Bit i says whether code i is this one.
#[inline(always)]
fn equal_to(codes: &[u8; 64], code: u8) -> u64
    ensures { (i : ℕ) → i < 64 → bit_at result i ≡ cond (slice_index codes.now i == code) 1 0 }
{
    u8x64::from_array(*codes)
        .simd_eq(u8x64::splat(code))
        .to_bitmask()
}

/// The elements as bits. It compares 64 codes at once, twice.
pub fn pack_elements(block: &[Element; 64]) -> Planes
    ensures { (base : ℕ) (e : ℕ → Element) → ((i : ℕ) → i < 64 → e (base + i) ≡ slice_index_or block.now i Element.Lost)
        → IsPlanes result.y result.b base e }
{
    let codes = codes(block);
    Planes {
        y: equal_to(&codes, Element::Y as u8),
        b: equal_to(&codes, Element::B as u8),
    }
}

/// The elements of 64 signs as bits: `Y`, `B`, and any other byte for a lost one (this project's profile).
#[inline(always)]
pub fn sign_planes(block: &[u8; 64]) -> Planes
    ensures { (base : ℕ) (e : ℕ → Element) → ((i : ℕ) → i < 64 → e (base + i) ≡ element_of (slice_index block.now i))
        → IsPlanes result.y result.b base e }
{
    Planes {
        y: equal_to(block, b'Y'),
        b: equal_to(block, b'B'),
    }
}

/// The elements of 64 signs as bits: `Y`, `B`, and `-` for a lost one (this project's profile). `None` comes where a
/// byte is no sign. Lost ones are looked for only where there is a sign that is neither `Y` nor `B`.
#[inline(always)]
pub fn pack_signs(block: &[u8; 64]) -> Option<Planes>
    ensures signs { IfSome result (λ _. list_all is_sign block.now ≡ true) }
    ensures planes { IfSome result (λ planes. (base : ℕ) (e : ℕ → Element)
        → ((i : ℕ) → i < 64 → e (base + i) ≡ element_of (slice_index block.now i)) → IsPlanes planes.y planes.b base e) }
    ensures none { IsNone result → list_all is_sign block.now ≡ false }
{
    let y = equal_to(block, b'Y');
    let b = equal_to(block, b'B');
    if y | b == u64::MAX {
        return Some(Planes { y, b });
    }
    if y | b | equal_to(block, b'-') == u64::MAX {
        return Some(Planes { y, b });
    }
    None
}

/// The symbol whose word the ten elements from a place on are, and 128 where they are no symbol's word (ITU-R M.493,
/// the ten-unit code). The place counts from the first of the 64 elements. It looks into a table by the ten bits.
#[inline(always)]
pub fn symbol_at(planes: &Planes, first: u32) -> u8
    requires { first + 10 ≤ 64 }
    ensures { (base : ℕ) (e : ℕ → Element) → IsPlanes planes.now.y planes.now.b base e
        → IsSymbol (stretch e 10 (base + first)) result }
{
    let y = planes.y >> first & 1023;
    let lost = !(planes.y | planes.b) >> first & 1023;
    symbol_of((y + 1024 * lost) as u32)
}

#[cfg(test)]
mod tests;
