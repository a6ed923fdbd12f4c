//! The definitions' own programs, with which tests compare the faster ones.
ghost use Rattle.std.specs.Prelude.{◌≡◌, ℕ, ◌<◌, ◌≤◌, ◌&&◌, nat_lt, ◌↔◌, length, Some, IfSome, IsNone};
ghost use Rattle.phasing.specs.Slot.{shows};
ghost use Rattle.phasing.specs.Origin.{lead_of};
ghost use Rattle.slot_evidence.specs.Facts.{facts_at, facts_of};
ghost use Rattle.slot_evidence.specs.Seen.{IsSeen, IsLawful};
ghost use Rattle.slot_evidence.specs.Sheet.{IsSheet, IsEnds, seen_at};

use crate::places::Seen;
use phasing::{LAST_LEAD, LONGEST, lead, slot_symbol};
use ten_unit::Element;
use time_diversity::{dx_slot, rx_slot};

/// What a slot shows.
fn seen_in(e: &[Element], lead: u32, slot: u16) -> Seen
    requires length { length e.now ≤ LONGEST }
    requires lead { lead ≤ LAST_LEAD }
    ensures seen { IsSeen (λ v. nat_lt v 128 && shows e.now lead slot v) result }
    ensures lawful { IsLawful result }
{
    match slot_symbol(e, lead, slot) {
        None => Seen::None,
        Some(symbol) => Seen::One(symbol),
    }
}

/// What the two slots of a place show.
fn seen_of(e: &[Element], lead: u32, p: u8) -> Seen
    requires length { length e.now ≤ LONGEST }
    requires lead { lead ≤ LAST_LEAD }
    requires place { p < 64 }
    ensures seen { IsSeen (facts_at e.now (Some lead) p) result }
    ensures lawful { IsLawful result }
{
    seen_in(e, lead, dx_slot(p)).meet(seen_in(e, lead, rx_slot(p)))
}

/// What the slots of each place show.
fn places_of(e: &[Element], lead: u32) -> [Seen; 64]
    requires length { length e.now ≤ LONGEST }
    requires lead { lead ≤ LAST_LEAD }
    ensures seen { (p : ℕ) → IsSeen (facts_at e.now (Some lead) p) (seen_at result p) }
    ensures lawful { IsSheet result }
{
    let mut places = [Seen::None; 64];
    for p in 0..64 {
        places[p as usize] = seen_of(e, lead, p);
    }
    places
}

/// What is kept of each place of a reception's facts.
pub(crate) fn read_sheet(e: &[Element]) -> Option<[Seen; 64]>
    requires { length e.now ≤ LONGEST }
    ensures some { IfSome result (λ s. IsEnds (facts_of e.now) s) }
    ensures none { IsNone result ↔ (lead_of e.now ≡ None) }
{
    let lead = lead(e)?;
    Some(places_of(e, lead))
}
