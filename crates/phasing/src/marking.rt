//! Marks of the places at which words of phasing symbols begin, 64 places at once.
ghost use Rattle.std.specs.Prelude.{◌≡◌, ℕ, ◌+◌, ◌<◌, ◌≤◌, Bool, List, length};
ghost use Rattle.ten_unit.specs.inside.Marks.{IsMarks, IsPlanes};
ghost use Rattle.ten_unit.specs.Word.{element_eq, word_of};
ghost use Rattle.ten_unit.specs.declared.character.Element.{Element};
ghost use Rattle.phasing.specs.inside.Places.{element_at, is_at};
ghost use Rattle.phasing.specs.inside.Likely.{filled};
ghost use Rattle.phasing.specs.inside.Marked.{ArePhasing};

use crate::reception::LEAD_OF_FIRST;
use dsc_symbols::phasing::{DX, RX_0, RX_1, RX_2, RX_3, RX_4, RX_5, RX_6, RX_7};
use ten_unit::{Element, Planes, word};

/// At which of 64 places the words of the phasing symbols begin, a bit a place: of DX, and of RX 7 down to RX 0.
#[derive(Clone, Copy)]
pub(crate) struct Phasing {
    pub dx: u64,
    pub rx: [u64; 8],
}

impl Phasing {
    /// No word begins before a reception's first element, which is at place 150.
    pub fn before() -> Self
        ensures exact { (base : ℕ) (e : List Element) → base + 64 ≤ LEAD_OF_FIRST
            → ArePhasing result base (element_at e) }
        ensures likely { (base : ℕ) (e : List Element) → base + 64 ≤ LEAD_OF_FIRST
            → ArePhasing result base (filled (element_at e)) }
    {
        Phasing { dx: 0, rx: [0; 8] }
    }
}

/// The marks of the 64 places that begin so many places after the low word's first one. The high word has those of the
/// 64 places after the low word's.
#[inline(always)]
pub(crate) fn shifted(low: u64, high: u64, shift: u32) -> u64
    requires { shift < 64 }
    ensures { (base : ℕ) (f : ℕ → Bool) → IsMarks low base f → IsMarks high (base + 64) f
        → IsMarks result (base + shift) f }
{
    low >> shift | high << 1 << (63 - shift)
}

/// At which places this element is: of the 64 that begin so many places after the first planes' first one.
#[inline(always)]
fn element_marked(element: Element, here: Planes, next: Planes, shift: u32) -> u64
    requires { shift < 64 }
    ensures { (base : ℕ) (e : ℕ → Element) → IsPlanes here.y here.b base e → IsPlanes next.y next.b (base + 64) e
        → IsMarks result (base + shift) (λ place. element_eq (e place) element) }
{
    let y = shifted(here.y, next.y, shift);
    let b = shifted(here.b, next.b, shift);
    match element {
        Element::Y => y,
        Element::B => b,
        Element::Lost => !(y | b),
    }
}

/// At which of 64 places these elements come so many places later. Each place is tested for the first of them, the
/// place after it for the second, and so on. Where they are constant, the loop and its choices fold into shifts by
/// constants.
#[inline(always)]
fn run_marked(elements: &[Element], behind: u32, here: Planes, next: Planes) -> u64
    requires { behind + length elements.now ≤ 10 }
    ensures { (base : ℕ) (e : ℕ → Element) → IsPlanes here.y here.b base e → IsPlanes next.y next.b (base + 64) e
        → IsMarks result base (λ place. is_at e elements.now (place + behind)) }
{
    let mut all = u64::MAX;
    for number in 0..elements.len() {
        all &= element_marked(elements[number], here, next, behind + number as u32);
    }
    all
}

/// At which of 64 places a word begins. The elements that most of the phasing symbols share come first, so that the
/// compiler tests them once.
#[inline(always)]
fn word_marked(word: &[Element; 10], here: Planes, next: Planes) -> u64
    ensures { (base : ℕ) (e : ℕ → Element) → IsPlanes here.y here.b base e → IsPlanes next.y next.b (base + 64) e
        → IsMarks result base (is_at e word.now) }
{
    run_marked(&word[3..], 3, here, next) & run_marked(&word[..3], 0, here, next)
}

/// At which of 64 places the words of the phasing symbols begin (ITU-R M.493, phasing sequence). The planes are of
/// these places and of the 64 after them.
#[inline(always)]
pub(crate) fn phasing_marked(here: Planes, next: Planes) -> Phasing
    ensures { (base : ℕ) (e : ℕ → Element) → IsPlanes here.y here.b base e → IsPlanes next.y next.b (base + 64) e
        → ArePhasing result base e }
{
    Phasing {
        dx: word_marked(&word(DX), here, next),
        rx: [
            word_marked(&word(RX_7), here, next),
            word_marked(&word(RX_6), here, next),
            word_marked(&word(RX_5), here, next),
            word_marked(&word(RX_4), here, next),
            word_marked(&word(RX_3), here, next),
            word_marked(&word(RX_2), here, next),
            word_marked(&word(RX_1), here, next),
            word_marked(&word(RX_0), here, next),
        ],
    }
}

/// These elements with B in the place of each lost one.
#[inline(always)]
fn filled_planes(planes: Planes) -> Planes
    ensures { (base : ℕ) (e : ℕ → Element) → LEAD_OF_FIRST ≤ base → IsPlanes planes.y planes.b base e
        → IsPlanes result.y result.b base (filled e) }
{
    Planes {
        y: planes.y,
        b: !planes.y,
    }
}

/// At which of 64 places the words of the phasing symbols begin, if lost elements are taken for B. So it needs one of
/// the two planes alone. A word that begins without that is among these.
#[inline(always)]
pub(crate) fn likely_marked(here: Planes, next: Planes) -> Phasing
    ensures { (base : ℕ) (e : ℕ → Element) → LEAD_OF_FIRST ≤ base → IsPlanes here.y here.b base e
        → IsPlanes next.y next.b (base + 64) e → ArePhasing result base (filled e) }
{
    phasing_marked(filled_planes(here), filled_planes(next))
}
