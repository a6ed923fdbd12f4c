//! The sheet of a reception: what its slots show, place by place.
ghost use Rattle.std.specs.Prelude.{◌≡◌, ℕ, ◌+◌, ◌<◌, ◌≤◌, ◌↔◌, min, max, length, Some, IfSome, IsNone, slice_index};
ghost use Rattle.phasing.specs.Origin.{lead_of};
ghost use Rattle.slot_evidence.specs.Facts.{facts_at, facts_of};
ghost use Rattle.slot_evidence.specs.inside.Kept.{past_symbol};
ghost use Rattle.slot_evidence.specs.Sheet.{IsEnds};

use crate::sheets::Sheet;
use crate::slots::{ShownSlot, read_slots};
use phasing::{Elements, LAST_LEAD, LONGEST, lead};

/// The greater number after either of two symbols, and 0 after none, which is 128. With 128 more, and 256 taken for 0,
/// none is the least; of it 127 less leaves 0. So the compiler makes it of sixteen pairs a step.
fn past_of(a: u8, b: u8) -> u8
    requires { (a ≤ 128) × (b ≤ 128) }
    ensures { result ≡ max (past_symbol a) (past_symbol b) }
{
    let later = a.wrapping_add(128).max(b.wrapping_add(128));
    later.saturating_sub(127)
}

/// The lesser symbol of each place's two slots.
fn leasts_of(shown: &ShownSlot) -> [u8; 64]
    ensures places { length result ≡ 64 }
    ensures each { (p : ℕ) → p < 64 → slice_index result p
        ≡ min (slice_index shown.now.dx p) (slice_index shown.now.rx (p + 2)) }
{
    let mut leasts = [128; 64];
    for p in 0..64 {
        leasts[p] = shown.dx[p].min(shown.rx[p + 2]);
    }
    leasts
}

/// The greater number after the symbol of each place's two slots.
fn pasts_of(shown: &ShownSlot) -> [u8; 64]
    requires dx { (k : ℕ) → k < 66 → slice_index shown.now.dx k ≤ 128 }
    requires rx { (k : ℕ) → k < 66 → slice_index shown.now.rx k ≤ 128 }
    ensures places { length result ≡ 64 }
    ensures each { (p : ℕ) → p < 64 → slice_index result p
        ≡ max (past_symbol (slice_index shown.now.dx p)) (past_symbol (slice_index shown.now.rx (p + 2))) }
{
    let mut pasts = [0; 64];
    for p in 0..64 {
        pasts[p] = past_of(shown.dx[p], shown.rx[p + 2]);
    }
    pasts
}

/// The sheet of what a reception shows at a lead: of each place below 64 what its DX slot and its RX slot show at the
/// origin `lead - 150` (ITU-R M.493, time diversity), phased or not. The lead is 40 or later.
///
/// It reads the slots' symbols six slots a step, and then the least and the greatest of each place's two, sixteen
/// places a step.
pub fn sheet_at<E: Elements>(e: E, lead: u32) -> Sheet
    requires length { length (E.list e) ≤ LONGEST }
    requires begun { 40 ≤ lead }
    requires lead { lead ≤ LAST_LEAD }
    ensures { IsEnds (facts_at (E.list e) (Some lead)) result }
{
    let shown = read_slots(e, lead);
    Sheet::from_numbers(leasts_of(&shown), pasts_of(&shown))
}

/// The sheet of a reception's facts: of each place below 64 what its DX slot and its RX slot show
/// at the origin (ITU-R M.493, time diversity). `None` comes exactly where the reception has no origin.
pub fn read_sheet<E: Elements>(e: E) -> Option<Sheet>
    requires { length (E.list e) ≤ LONGEST }
    ensures some { IfSome result (λ s. IsEnds (facts_of (E.list e)) s) }
    ensures none { IsNone result ↔ (lead_of (E.list e) ≡ None) }
{
    let lead = lead(e)?;
    Some(sheet_at(e, lead))
}

/// The sheet of what a receiver heard: it is empty where no origin is found.
pub fn shown_by<E: Elements>(heard: E) -> Sheet
    requires { length (E.list heard) ≤ LONGEST }
    ensures { IsEnds (facts_of (E.list heard)) result }
{
    match read_sheet(heard) {
        Some(sheet) => sheet,
        None => Sheet::empty(),
    }
}
