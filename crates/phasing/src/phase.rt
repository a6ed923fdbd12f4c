//! The origin of a reception, found 64 leads at once.
ghost use Rattle.std.specs.Prelude.{◌≡◌, ℕ, ◌+◌, ◌*◌, ◌<◌, ◌≤◌, true, false, List, length, IfSome, IsNone};
ghost use Rattle.ten_unit.specs.declared.character.Element.{Element};
ghost use Rattle.ten_unit.specs.inside.Marks.{IsMarks, IsPlanes};
ghost use Rattle.phasing.specs.inside.Likely.{HasAll, filled};
ghost use Rattle.phasing.specs.inside.Marked.{ArePhasing, IsCount, IsFirstPhased};
ghost use Rattle.phasing.specs.Origin as sequence;
ghost use Rattle.phasing.specs.inside.Places.{element_at};

use crate::counting::Count;
use crate::intact::intact_lead;
use crate::marking::{Phasing, likely_marked, phasing_marked, shifted};
use crate::reception::{LEAD_OF_FIRST, LONGEST};
use crate::window::Elements;
use dsc_symbols::phasing::{DX, RX_7};
use ten_unit::{Planes, symbol_at};

/// How many DX slots show their phasing symbol at each of 64 leads, from the marks of the places from the first lead
/// on.
fn dx_right(first: &Phasing, second: &Phasing, third: &Phasing) -> Count
    ensures { (base : ℕ) (e : List Element) → ArePhasing first.now base (element_at e)
        → ArePhasing second.now (base + 64) (element_at e)
        → ArePhasing third.now (base + 128) (element_at e) → IsCount result base (sequence.dx_right e) }
{
    Count::none()
        .add(first.dx)
        .add(shifted(first.dx, second.dx, 20))
        .add(shifted(first.dx, second.dx, 40))
        .add(shifted(first.dx, second.dx, 60))
        .add(shifted(second.dx, third.dx, 16))
        .add(shifted(second.dx, third.dx, 36))
}

/// How many RX slots show theirs.
fn rx_right(first: &Phasing, second: &Phasing, third: &Phasing, fourth: &Phasing) -> Count
    ensures { (base : ℕ) (e : List Element) → ArePhasing first.now base (element_at e)
        → ArePhasing second.now (base + 64) (element_at e)
        → ArePhasing third.now (base + 128) (element_at e) → ArePhasing fourth.now (base + 192) (element_at e)
        → IsCount result base (sequence.rx_right e) }
{
    Count::none()
        .add(shifted(first.rx[0], second.rx[0], 10))
        .add(shifted(first.rx[1], second.rx[1], 30))
        .add(shifted(first.rx[2], second.rx[2], 50))
        .add(shifted(second.rx[3], third.rx[3], 6))
        .add(shifted(second.rx[4], third.rx[4], 26))
        .add(shifted(second.rx[5], third.rx[5], 46))
        .add(shifted(third.rx[6], fourth.rx[6], 2))
        .add(shifted(third.rx[7], fourth.rx[7], 22))
}

/// At which of 64 leads so many right phasing symbols are enough.
fn enough(dx: Count, rx: Count) -> u64
    ensures { (base : ℕ) (e : List Element) → IsCount dx base (sequence.dx_right e)
        → IsCount rx base (sequence.rx_right e) → IsMarks result base (sequence.is_phased e) }
{
    dx.two & rx.one | rx.two & dx.one | rx.three
}

/// At which of 64 leads enough phasing symbols are right. Slot 15 of the last lead begins in the fourth block of 64
/// places.
fn phased(first: &Phasing, second: &Phasing, third: &Phasing, fourth: &Phasing) -> u64
    ensures { (base : ℕ) (e : List Element) → ArePhasing first.now base (element_at e)
        → ArePhasing second.now (base + 64) (element_at e)
        → ArePhasing third.now (base + 128) (element_at e) → ArePhasing fourth.now (base + 192) (element_at e)
        → IsMarks result base (sequence.is_phased e) }
{
    enough(
        dx_right(first, second, third),
        rx_right(first, second, third, fourth),
    )
}

/// The elements of three slots. In fewer no three phasing symbols can be right.
const SHORTEST: usize = 30;

/// At which of 64 leads two of five groups of slots have a right symbol, if lost elements are taken for B. The groups
/// are the DX slots, and the RX slots two by two. Each phased lead is among these, since three right RX symbols are in
/// two groups. Of leads by chance, one in some 15,000 is.
#[inline(always)]
fn likely_phased(first: &Phasing, second: &Phasing, third: &Phasing, fourth: &Phasing) -> u64
    ensures { (base : ℕ) (e : List Element) → ArePhasing first.now base (filled (element_at e))
        → ArePhasing second.now (base + 64) (filled (element_at e))
        → ArePhasing third.now (base + 128) (filled (element_at e))
        → ArePhasing fourth.now (base + 192) (filled (element_at e)) → HasAll result base (sequence.is_phased e) }
{
    let dx = first.dx
        | shifted(first.dx, second.dx, 20)
        | shifted(first.dx, second.dx, 40)
        | shifted(first.dx, second.dx, 60)
        | shifted(second.dx, third.dx, 16)
        | shifted(second.dx, third.dx, 36);
    let rx_1_3 = shifted(first.rx[0], second.rx[0], 10) | shifted(first.rx[1], second.rx[1], 30);
    let rx_5_7 = shifted(first.rx[2], second.rx[2], 50) | shifted(second.rx[3], third.rx[3], 6);
    let rx_9_11 = shifted(second.rx[4], third.rx[4], 26) | shifted(second.rx[5], third.rx[5], 46);
    let rx_13_15 = shifted(third.rx[6], fourth.rx[6], 2) | shifted(third.rx[7], fourth.rx[7], 22);
    Count::none()
        .add(dx)
        .add(rx_1_3)
        .add(rx_5_7)
        .add(rx_9_11)
        .add(rx_13_15)
        .two
}

/// Whether the first three slots of a lead show their phasing symbols, which is enough. It looks from the first element
/// on alone.
#[inline(always)]
fn begins_well<E: Elements>(e: E, lead: u32) -> bool
    ensures { result ≡ true → sequence.is_phased (E.list e) lead ≡ true }
{
    if lead < LEAD_OF_FIRST {
        return false;
    }
    let planes = e.planes_from((lead - LEAD_OF_FIRST) as usize);
    let first = symbol_at(&planes, 0);
    let second = symbol_at(&planes, 10);
    let third = symbol_at(&planes, 20);
    (first == DX) & (second == RX_7) & (third == DX)
}

/// The marks of the block with this number: of the 64 places from 22 after its number times 64 on. No word begins in
/// the first two.
fn marks_of<E: Elements>(e: E, block: u32) -> Phasing
    requires { 64 * block ≤ LONGEST + 1024 }
    ensures { ArePhasing result (64 * block + 22) (element_at (E.list e)) }
{
    if block < 2 {
        let none = Phasing::before();
        return none;
    }
    let begin = 64 * (block - 2) as usize;
    phasing_marked(e.planes_from(begin), e.planes_from(begin + 64))
}

/// Which leads of a block are phased. It counts the right symbols at each, as far as three.
#[inline(never)]
fn counted<E: Elements>(e: E, block: u32) -> u64
    requires { 64 * block ≤ LONGEST + 512 }
    ensures { IsMarks result (64 * block + 22) (sequence.is_phased (E.list e)) }
{
    phased(
        &marks_of(e, block),
        &marks_of(e, block + 1),
        &marks_of(e, block + 2),
        &marks_of(e, block + 3),
    )
}

/// The same, where all that are phased are among these. Mostly there is none, or one, which begins well.
#[inline(always)]
fn phased_among<E: Elements>(e: E, block: u32, likely: u64) -> u64
    requires block { 64 * block ≤ LONGEST + 512 }
    requires likely { HasAll likely (64 * block + 22) (sequence.is_phased (E.list e)) }
    ensures { IsMarks result (64 * block + 22) (sequence.is_phased (E.list e)) }
{
    if likely == 0 {
        return 0;
    }
    let number = likely.trailing_zeros();
    if likely == 1 << number && begins_well(e, 64 * block + 22 + number) {
        return likely;
    }
    counted(e, block)
}

/// What a block of 64 leads takes from the places after it, and which of its leads are phased.
#[derive(Drop)]
struct Searched {
    marks: Phasing,
    behind: Planes,
    phased: u64,
}

/// At which leads of the block with this number enough phasing symbols are right. The marks are of this block and of
/// the two after it, if lost elements are taken for B, the planes of the elements after them. It gives the marks of the
/// fourth block and the planes after that.
#[inline(always)]
fn search_block<E: Elements>(
    e: E,
    block: u32,
    first: &Phasing,
    second: &Phasing,
    third: &Phasing,
    next: Planes,
) -> Searched
    requires block { 64 * block ≤ LONGEST + 512 }
    requires first { ArePhasing first.now (64 * block + 22) (filled (element_at (E.list e))) }
    requires second { ArePhasing second.now (64 * block + 86) (filled (element_at (E.list e))) }
    requires third { ArePhasing third.now (64 * block + LEAD_OF_FIRST) (filled (element_at (E.list e))) }
    requires next { IsPlanes next.y next.b (64 * block + 214) (element_at (E.list e)) }
    ensures marks { ArePhasing result.marks (64 * block + 214) (filled (element_at (E.list e))) }
    ensures behind { IsPlanes result.behind.y result.behind.b (64 * block + 278) (element_at (E.list e)) }
    ensures phased { IsMarks result.phased (64 * block + 22) (sequence.is_phased (E.list e)) }
{
    let behind = e.planes_from((64 * block + 128) as usize);
    let fourth = likely_marked(next, behind);
    let likely = likely_phased(first, second, third, &fourth);
    Searched {
        marks: fourth,
        behind,
        phased: phased_among(e, block, likely),
    }
}

/// The first phased lead in so many turns of three blocks, from the block with this number on. The marks are of its
/// first three blocks, if lost elements are taken for B, the planes of the elements after them. The first bit of a block
/// that is phased is the lead. Three blocks are one turn, so that three marks move to the place of three only once.
#[inline(always)]
fn first_within<E: Elements>(
    e: E,
    begin: u32,
    turns: u32,
    mut first: Phasing,
    mut second: Phasing,
    mut third: Phasing,
    mut next: Planes,
) -> Option<u32>
    requires length { length (E.list e) ≤ LONGEST }
    requires turns { 64 * begin + 192 * turns ≤ LONGEST + 512 }
    requires first { ArePhasing first (64 * begin + 22) (filled (element_at (E.list e))) }
    requires second { ArePhasing second (64 * begin + 86) (filled (element_at (E.list e))) }
    requires third { ArePhasing third (64 * begin + LEAD_OF_FIRST) (filled (element_at (E.list e))) }
    requires next { IsPlanes next.y next.b (64 * begin + 214) (element_at (E.list e)) }
    ensures first { IfSome result (IsFirstPhased (E.list e) (64 * begin + 22)) }
    ensures none { IsNone result → (lead : ℕ) → 64 * begin + 22 ≤ lead → lead < 64 * begin + 192 * turns + 22
        → sequence.is_phased (E.list e) lead ≡ false }
{
    for turn in 0..turns {
        let block = begin + 3 * turn;
        let from = 64 * block + 22;
        let fourth = search_block(e, block, &first, &second, &third, next);
        if fourth.phased != 0 {
            return Some(from + fourth.phased.trailing_zeros());
        }
        let fifth = search_block(e, block + 1, &second, &third, &fourth.marks, fourth.behind);
        if fifth.phased != 0 {
            return Some(from + 64 + fifth.phased.trailing_zeros());
        }
        let sixth = search_block(
            e,
            block + 2,
            &third,
            &fourth.marks,
            &fifth.marks,
            fifth.behind,
        );
        if sixth.phased != 0 {
            return Some(from + 128 + sixth.phased.trailing_zeros());
        }
        first = fourth.marks;
        second = fifth.marks;
        third = sixth.marks;
        next = sixth.behind;
    }
    None
}

/// The first phased lead from the block with this number on. The marks are of its first three blocks, if lost elements
/// are taken for B, the planes of the elements after them.
#[inline(always)]
fn first_from<E: Elements>(
    e: E,
    begin: u32,
    first: Phasing,
    second: Phasing,
    third: Phasing,
    next: Planes,
) -> Option<u32>
    requires length { length (E.list e) ≤ LONGEST }
    requires begin { begin ≤ 2 }
    requires first { ArePhasing first (64 * begin + 22) (filled (element_at (E.list e))) }
    requires second { ArePhasing second (64 * begin + 86) (filled (element_at (E.list e))) }
    requires third { ArePhasing third (64 * begin + LEAD_OF_FIRST) (filled (element_at (E.list e))) }
    requires next { IsPlanes next.y next.b (64 * begin + 214) (element_at (E.list e)) }
    ensures first { IfSome result (IsFirstPhased (E.list e) (64 * begin + 22)) }
    ensures none { IsNone result → (lead : ℕ) → 64 * begin + 22 ≤ lead
        → sequence.is_phased (E.list e) lead ≡ false }
{
    let turns = (e.count() as u32 + 319).saturating_sub(64 * begin) / 192;
    first_within(e, begin, turns, first, second, third, next)
}

/// The lead of a reception's origin (ITU-R M.493, phasing sequence): the origin, counted from 150 elements before the
/// reception's first one. `None` comes exactly where no origin from -150 on is phased. None is below lead 40, where the
/// reception has no DX slot and two RX slots at most.
///
/// It tests 64 leads at once, in place of each lead and slot in turn. A block of 64 elements is two words of bits.
/// Shifts and ands of one of them give the places at which each phasing symbol's word begins, if lost elements are
/// taken for B. Ors of these show the few leads that may be phased; of those alone the right symbols are counted, with
/// both words. Four blocks of 64 places move over the reception, from lead 22 on, so that element 0 is the first of a
/// block. It takes under 2 KB of stack at any length.
pub fn lead<E: Elements>(e: E) -> Option<u32>
    requires { length (E.list e) ≤ LONGEST }
    ensures least { result ≡ sequence.lead_of (E.list e) }
    ensures within { IfSome result (λ lead. lead < length (E.list e) + LEAD_OF_FIRST) }
    ensures from { IfSome result (λ lead. 40 ≤ lead) }
{
    if e.count() < SHORTEST {
        return None;
    }
    let intact = intact_lead(e);
    if intact.is_some() {
        return intact;
    }
    let next = e.planes_from(64);
    let third = likely_marked(e.planes_from(0), next);

    // No word begins before element 0. So the compiler leaves out most of the first block's search.
    let none = Phasing::before();
    let fourth = search_block(e, 0, &none, &none, &third, next);
    if fourth.phased != 0 {
        return Some(22 + fourth.phased.trailing_zeros());
    }
    first_from(e, 1, none, third, fourth.marks, fourth.behind)
}

/// What a search finds from a reception's first element on: which of the first 64 indices are phased origins, a bit an
/// index, and, where none of them after index 0 is, the first phased lead after theirs.
#[derive(Drop)]
struct FromFirst {
    near: u64,
    far: Option<u32>,
}

/// Searches the first 64 indices, and, where none of them after index 0 is phased, so many turns of three blocks. It is
/// one body for both of its callers. So the compiler inlines `first_within` here, and no marks go through memory.
#[inline(never)]
fn search_from_first<E: Elements>(e: E, turns: u32) -> FromFirst
    requires length { length (E.list e) ≤ LONGEST }
    requires turns { 192 * turns ≤ LONGEST + 320 }
    ensures near { IsMarks result.near LEAD_OF_FIRST (sequence.is_phased (E.list e)) }
    ensures far { IfSome result.far (IsFirstPhased (E.list e) (LEAD_OF_FIRST + 64)) }
    ensures none { IsNone result.far → result.near < 2 → (lead : ℕ) → LEAD_OF_FIRST + 64 ≤ lead
        → lead < 192 * turns + LEAD_OF_FIRST + 64 → sequence.is_phased (E.list e) lead ≡ false }
{
    let middle = e.planes_from(64);
    let last = e.planes_from(128);
    let behind = e.planes_from(192);
    let first = likely_marked(e.planes_from(0), middle);
    let second = likely_marked(middle, last);
    let third = likely_marked(last, behind);
    let fourth = search_block(e, 2, &first, &second, &third, behind);
    let near = fourth.phased;
    if near > 1 {
        return FromFirst { near, far: None };
    }
    let far = first_within(e, 3, turns, second, third, fourth.marks, fourth.behind);
    FromFirst { near, far }
}

/// The first index of a reception that is a phased origin, whatever is phased before its first element, and its length
/// where none is (ITU-R M.493, phasing sequence). It searches as `lead` does, from lead 150 on.
pub fn first_phased<E: Elements>(e: E) -> u32
    requires { length (E.list e) ≤ LONGEST }
    ensures within { result ≤ length (E.list e) }
    ensures phased { result < length (E.list e) → sequence.is_phased (E.list e) (result + LEAD_OF_FIRST) ≡ true }
    ensures none { (k : ℕ) → k < result → sequence.is_phased (E.list e) (k + LEAD_OF_FIRST) ≡ false }
{
    let found = search_from_first(e, (e.count() as u32).saturating_sub(64).div_ceil(192));
    if found.near != 0 {
        return found.near.trailing_zeros();
    }
    match found.far {
        Some(lead) => lead - LEAD_OF_FIRST,
        None => e.count() as u32,
    }
}

/// So many indices of a front are searched at once: 22 blocks of 64.
pub const FRONT_INDICES: u32 = 22 * 64;

/// What a search of a reception's front finds: whether its first element is a phased origin, and the next index that is
/// one, or `FRONT_INDICES` where none before it is.
#[derive(Clone, Copy, Debug, PartialEq, Eq)]
pub struct Front {
    pub begins: bool,
    pub next: u32,
}

/// Which of the first 1,408 indices of a reception are the first two phased origins, if index 0 is one, and else which
/// is the first (ITU-R M.493, phasing sequence). It searches as `first_phased` does, and looks no further, whatever the
/// length: so many indices take whole turns, and the first block's marks say both.
pub fn search_front<E: Elements>(e: E) -> Front
    requires { length (E.list e) ≤ LONGEST }
    ensures begins { result.begins ≡ sequence.is_phased (E.list e) LEAD_OF_FIRST }
    ensures from { 1 ≤ result.next }
    ensures within { result.next ≤ FRONT_INDICES }
    ensures phased { result.next < FRONT_INDICES → sequence.is_phased (E.list e) (result.next + LEAD_OF_FIRST) ≡ true }
    ensures none { (k : ℕ) → 1 ≤ k → k < result.next → sequence.is_phased (E.list e) (k + LEAD_OF_FIRST) ≡ false }
{
    let found = search_from_first(e, 7);
    let begins = found.near % 2 == 1;
    let later = found.near / 2;
    if later != 0 {
        let next = 1 + later.trailing_zeros();
        return Front { begins, next };
    }
    match found.far {
        Some(lead) => Front {
            begins,
            next: (lead - LEAD_OF_FIRST).min(FRONT_INDICES),
        },
        None => Front {
            begins,
            next: FRONT_INDICES,
        },
    }
}

/// The origin of a reception (ITU-R M.493, phasing sequence): the index at which the transmission's slot 0 begins,
/// from -150 on (this project's profile), the least one at which at least two DX and one RX phasing symbols are
/// right, or two RX and one DX, or three RX. `None` comes exactly where there is none.
pub fn origin<E: Elements>(e: E) -> Option<i32>
    requires { length (E.list e) ≤ LONGEST }
    ensures { result ≡ sequence.origin_of (E.list e) }
{
    lead(e).map(|lead| lead as i32 - LEAD_OF_FIRST as i32)
}
