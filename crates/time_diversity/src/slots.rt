//! The two slots of a place, and the place of a slot.
ghost use Rattle.std.specs.Prelude.{◌≡◌, ◌↔◌, ℕ, ◌<◌, Some, IfSome, IsNone};
ghost use Rattle.time_diversity.specs.Slots as diversity;
ghost use Rattle.time_diversity.specs.Slots.{IsSlotOf, IsNoPlace};

/// The places that are looked at, from 0 on (this project's profile).
const PLACES: u16 = 64;

/// The slot of the DX copy of place 0 (ITU-R M.493, time diversity).
pub(crate) const FIRST_DX: u16 = 12;

/// The slot of the RX copy of place 0 (ITU-R M.493, time diversity).
pub(crate) const FIRST_RX: u16 = 17;

/// The slots up to the RX copy of the last place, from 0 on.
pub const SLOTS: u16 = FIRST_RX + 2 * PLACES - 1;

/// The slot of the DX copy of a place of a call's list (ITU-R M.493, time diversity). The place is below 64.
pub fn dx_slot(p: u8) -> u16
    requires { p < 64 }
    ensures { result ≡ diversity.dx_slot p }
{
    FIRST_DX + 2 * p as u16
}

/// The slot of the RX copy of a place of a call's list (ITU-R M.493, time diversity). The place is below 64.
pub fn rx_slot(p: u8) -> u16
    requires { p < 64 }
    ensures { result ≡ diversity.rx_slot p }
{
    FIRST_RX + 2 * p as u16
}

/// The place, below 64, that a slot is the DX or the RX slot of. `None` comes exactly for the slots of the phasing
/// symbols and for those after the copies of place 63: for slots 0 to 11, 13 and 15, for even slots from 140 on and
/// for odd ones from 145 on.
pub fn place_of(slot: u16) -> Option<u8>
    ensures some { IfSome result (λ p. (p < 64) × IsSlotOf slot p) }
    ensures only { (p : ℕ) → p < 64 → IsSlotOf slot p → result ≡ Some p }
    ensures none { IsNone result ↔ IsNoPlace slot }
{
    let first = if slot % 2 == 0 { FIRST_DX } else { FIRST_RX };
    if slot < first {
        return None;
    }
    let place = (slot - first) / 2;
    if place < PLACES {
        Some(place as u8)
    } else {
        None
    }
}
