//! Laws: each function here does nothing, and its contract is a theorem over definitions.
ghost use Rattle.std.specs.Prelude.{◌≡◌, ℕ, ◌+◌, ◌*◌, ◌==◌, ◌<◌, ◌≤◌, Bool, true, false, List, length, take, slice_index, Some, None, IsTrue, pos, ◌-ℤ◌};
ghost use Rattle.std.specs.List.{list_any};
ghost use Rattle.ten_unit.specs.declared.character.Element.{Element};
ghost use Rattle.phasing.specs.Origin.{is_phased, lead_of, origin_of};
ghost use Rattle.phasing.specs.Sent.{dot_count, sent};
ghost use Rattle.phasing.specs.Slot.{shows};
ghost use Rattle.phasing.specs.inside.Places.{element_at};
ghost use Rattle.phasing.specs.Start.{start_symbols, formats, IsIntactStart};

use crate::reception::{LAST_LEAD, LEAD_OF_FIRST, LONGEST, PHASING_ELEMENTS};

/// The law that these are the limits of a search, and the elements that it looks at.
pub fn limits()
    ensures longest { LONGEST ≡ 1000000 }
    ensures phasing { PHASING_ELEMENTS ≡ 160 }
    ensures first { LEAD_OF_FIRST ≡ 150 }
    ensures last { LAST_LEAD ≡ LONGEST + LEAD_OF_FIRST }
{}

/// No lead from 150 past the reception's length on is phased, so the origin's search loses none.
pub fn none_past_the_end()
    ensures { (e : List Element) (lead : ℕ) → length e + LEAD_OF_FIRST ≤ lead → is_phased e lead ≡ false }
{}

/// The lead of the origin is phased, and no lead below it; without one no lead is phased.
pub fn origin_is_least()
    ensures phased { (e : List Element) (q : ℕ) → lead_of e ≡ Some q → IsTrue (is_phased e q) }
    ensures least { (e : List Element) (q k : ℕ) → lead_of e ≡ Some q → k < q → is_phased e k ≡ false }
    ensures none { (e : List Element) (k : ℕ) → lead_of e ≡ None → is_phased e k ≡ false }
{}

/// The law that a call whose start is intact is found at its origin, however late the reception begins: the origin,
/// which is what `origin` answers, is 150 below the lead.
pub fn late_starts_are_found()
    ensures lead { (e : List Element) (slots : List ℕ) (long : Bool) (lead : ℕ) (format : ℕ)
        → list_any (λ f. f == format) formats ≡ true → take 16 slots ≡ start_symbols format
        → IsIntactStart e slots long lead → lead_of e ≡ Some lead }
    ensures origin { (e : List Element) (slots : List ℕ) (long : Bool) (lead : ℕ) (format : ℕ)
        → list_any (λ f. f == format) formats ≡ true → take 16 slots ≡ start_symbols format
        → IsIntactStart e slots long lead → origin_of e ≡ Some (pos lead -ℤ pos LEAD_OF_FIRST) }
{}

/// The law that a call's transmission has its origin after the dots, and that each slot shows its symbol there.
pub fn whole_calls_are_found()
    ensures lead { (slots : List ℕ) (long : Bool) (format : ℕ) → list_any (λ f. f == format) formats ≡ true
        → take 16 slots ≡ start_symbols format → lead_of (sent slots long) ≡ Some (dot_count long + LEAD_OF_FIRST) }
    ensures slots { (slots : List ℕ) (long : Bool) (slot : ℕ) → slot < length slots
        → shows (sent slots long) (dot_count long + LEAD_OF_FIRST) slot (slice_index slots slot) ≡ true }
    ensures length { (slots : List ℕ) (long : Bool) → length (sent slots long) ≡ dot_count long + 10 * length slots }
{}

/// The law that the ten elements of a slot decide what it shows, and the 160 from an origin on whether it is phased,
/// whatever is around them.
pub fn elements_decide()
    ensures slot { (e f : List Element) (q r s v : ℕ)
        → ((i : ℕ) → i < 10 → element_at e (q + 10 * s + i) ≡ element_at f (r + 10 * s + i))
        → shows e q s v ≡ shows f r s v }
    ensures lead { (e f : List Element) (q r : ℕ) → ((i : ℕ) → i < PHASING_ELEMENTS → element_at e (q + i) ≡ element_at f (r + i))
        → is_phased e q ≡ is_phased f r }
{}
