//! What the receivers of a generated group hear.
ghost use Rattle.std.specs.Prelude.{◌≡◌, ◌+◌, ◌*◌, ◌<◌, ◌≤◌, ◌++◌, false, IfOk, length, map, take, drop, replicate};
ghost use Rattle.ten_unit.specs.declared.character.Element.TheVariants.{B};
ghost use Rattle.phasing.specs.Sent.{sent};
ghost use Rattle.input_lines.specs.ReceiverLine.{sign_of};
ghost use Rattle.generated_join.specs.Generator as generator;
ghost use Rattle.generated_join.specs.Generator.{heard_of};

use std::alloc::{AllocError, Global};
use time_diversity::{dx_slot, rx_slot};

/// So many receivers hear the alert of each group.
pub const RECEPTIONS: u16 = 4;

/// Slots below this one, those of the phasing sequence, are lost to no receiver.
pub const FIRST_LOST_SLOT: u16 = 16;

/// The place of which both copies are lost to every receiver in some groups.
pub const LOST_PLACE: u8 = 9;

/// Whether a slot of the group's alert is lost to this receiver, whose numbers count from 0: one of four slots in turn
/// is, and in every seventh group both slots of the lost place.
fn is_lost(group: u16, receiver: u16, slot: u16) -> bool
    requires { (receiver < RECEPTIONS) × (slot ≤ 140) }
    ensures { result ≡ generator.is_lost group receiver slot }
{
    let in_turn = FIRST_LOST_SLOT <= slot && (slot + receiver) % 4 == 0;
    let of_lost_place = group % 7 == 6
        && (slot == dx_slot(LOST_PLACE) || slot == rx_slot(LOST_PLACE));
    in_turn || of_lost_place
}

/// Has nothing but B, which is no word, be heard of a slot.
fn lose(signs: &mut [u8], slot: u16)
    requires { 20 + 10 * slot + 10 ≤ length signs.old }
    ensures { signs.new ≡ take (20 + 10 * slot) signs.old
        ++ (map sign_of (replicate 10 B) ++ drop (20 + 10 * slot + 10) signs.old) }
{
    let begin = 20 + 10 * slot as usize;
    signs[begin..begin + 10].copy_from_slice(b"BBBBBBBBBB");
}

/// The signs of what this receiver hears of the group's alert, whose slots show these symbols, at most 140. The alert
/// is sent as this transmission: the dot pattern of 20 elements, and the slots one after another (ITU-R M.493, dot
/// pattern and time diversity).
pub(crate) fn heard(
    alloc: Global,
    group: u16,
    receiver: u16,
    slots: &[u8],
    transmission: &[u8],
) -> Result<Vec<u8>, AllocError>
    requires receiver { receiver < RECEPTIONS }
    requires length { length slots.now ≤ 140 }
    requires transmission { transmission.now ≡ map sign_of (sent slots.now false) }
    ensures items { IfOk result (λ v. v.items ≡ map sign_of (heard_of group receiver slots.now)) }
    ensures length { IfOk result (λ v. length v.items ≡ 20 + 10 * length slots.now) }
{
    let mut signs = Vec::with_capacity(alloc, transmission.len())?;
    signs.extend_from_slice(transmission)?;
    for slot in 0..slots.len() as u16 {
        if is_lost(group, receiver, slot) {
            lose(&mut signs, slot);
        }
    }
    Ok(signs)
}
