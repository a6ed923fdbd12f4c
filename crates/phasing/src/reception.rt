//! The bounds of a reception, and the symbol that a slot shows.
ghost use Rattle.std.specs.Prelude.{◌≡◌, ℕ, ◌<◌, ◌≤◌, length, Some, IfSome, IsTrue};
ghost use Rattle.phasing.specs.Slot as diversity;

use ten_unit::{ELEMENTS, Element, symbol};

/// The longest reception that is searched, in elements (this project's profile).
pub const LONGEST: usize = 1_000_000;

/// The slots that may have a phasing symbol, from 0 on (ITU-R M.493, phasing sequence).
const PHASING_SLOTS: u32 = 16;

/// The elements of these slots: they decide whether an origin is phased.
pub const PHASING_ELEMENTS: u32 = PHASING_SLOTS * ELEMENTS as u32;

/// The lead of an origin at a reception's first element. Leads count from all but one of these slots before it: a
/// reception of the last one alone is never phased (this project's profile).
pub const LEAD_OF_FIRST: u32 = (PHASING_SLOTS - 1) * ELEMENTS as u32;

/// The lead of an origin at the end of the longest reception.
pub const LAST_LEAD: u32 = LONGEST as u32 + LEAD_OF_FIRST;

/// The ten elements of a slot, where all ten are inside the reception, and else none.
pub(crate) fn elements(e: &[Element], lead: u32, slot: u16) -> &[Element]
    requires length { length e.now ≤ LONGEST }
    requires lead { lead ≤ LAST_LEAD }
    ensures { result.now ≡ diversity.slot e.now lead slot }
{
    let before = LEAD_OF_FIRST as usize;
    let begin = lead as usize + ELEMENTS * slot as usize;
    if before <= begin && begin + ELEMENTS <= e.len() + before {
        &e[begin - before..begin - before + ELEMENTS]
    } else {
        &[]
    }
}

/// The symbol that a slot of the reception shows at a lead: at the origin `lead - 150` (ITU-R M.493, time
/// diversity). `None` where some of its ten elements are outside the reception or lost, or are no symbol's word.
pub fn slot_symbol(e: &[Element], lead: u32, slot: u16) -> Option<u8>
    requires length { length e.now ≤ LONGEST }
    requires lead { lead ≤ LAST_LEAD }
    ensures some { IfSome result (λ v. (v < 128) × IsTrue (diversity.shows e.now lead slot v)) }
    ensures only { (v : ℕ) → v < 128 → IsTrue (diversity.shows e.now lead slot v) → result ≡ Some v }
{
    symbol(elements(e, lead, slot).first_chunk::<10>()?)
}
