//! Laws: each function here does nothing, and its contract is a theorem over definitions.
ghost use Rattle.std.specs.Prelude.{◌≡◌, ◌≢◌, ℕ, ◌-◌, List, slice_index};
ghost use Rattle.time_diversity.specs.Slots.{dx_slot, rx_slot, IsSlotOf};
ghost use Rattle.time_diversity.specs.OnAir.{sent_symbol};

use crate::slots::SLOTS;

/// The law that the slots of places have these numbers.
pub fn slot_numbers()
    ensures dx { dx_slot 0 ≡ 12 }
    ensures rx { rx_slot 0 ≡ 17 }
    ensures last { rx_slot 63 ≡ SLOTS - 1 }
    ensures slots { SLOTS ≡ 144 }
{}

/// Every place has two slots, and no slot is one of two places.
pub fn slots_of_a_place()
    ensures two { (p : ℕ) → dx_slot p ≢ rx_slot p }
    ensures own { (slot p q : ℕ) → IsSlotOf slot p → IsSlotOf slot q → p ≡ q }
{}

/// Both slots of a place show the place's character.
pub fn both_slots_show_the_character()
    ensures { (list : List ℕ) (slot p : ℕ) → IsSlotOf slot p → sent_symbol list slot ≡ slice_index list p }
{}
