//! What the slots of a reception show, six at a time.
ghost use Rattle.std.specs.Prelude.{◌≡◌, ℕ, ◌+◌, ◌*◌, ◌<◌, ◌≤◌, length, slice_index};
ghost use Rattle.ten_unit.specs.inside.Symbol.{IsSymbol};
ghost use Rattle.phasing.specs.Slot.{slot};
ghost use Rattle.slot_evidence.specs.inside.Six.{AreSix};

use phasing::{Elements, LAST_LEAD, LEAD_OF_FIRST, LONGEST};
use ten_unit::{Planes, symbol_at};

/// The symbols of slots 12 to 143, 128 for none. `dx` has those of the even slots from 12 on, the DX slot of place 0;
/// `rx` has those of the odd slots from 13 on, two before the RX slot of place 0.
#[derive(Drop)]
pub(crate) struct ShownSlot {
    pub(crate) dx: [u8; 66],
    pub(crate) rx: [u8; 66],
}

/// What slots 12 to 143 show at the lead of an origin. Slots from a reception's end on cost nothing.
///
/// It packs 64 elements a step as bits, of which 60 are six slots', and looks into a table by each slot's ten bits.
pub(crate) fn read_slots<E: Elements>(e: E, lead: u32) -> ShownSlot
    requires length { length (E.list e) ≤ LONGEST }
    requires begun { 40 ≤ lead }
    requires lead { lead ≤ LAST_LEAD }
    ensures dx { (k : ℕ) → k < 66 → IsSymbol (slot (E.list e) lead (12 + 2 * k)) (slice_index result.dx k) }
    ensures rx { (k : ℕ) → k < 66 → IsSymbol (slot (E.list e) lead (13 + 2 * k)) (slice_index result.rx k) }
{
    let mut dx = [128; 66];
    let mut rx = [128; 66];
    for window in 0..windows(e.count() as u32, lead) {
        let planes = e.planes_from((lead - 30 + 60 * window) as usize);
        let symbols = six_shown(&planes);
        for k in 0..3 {
            dx[(3 * window + k) as usize] = symbols[(2 * k) as usize];
            rx[(3 * window + k) as usize] = symbols[(2 * k + 1) as usize];
        }
    }
    ShownSlot { dx, rx }
}

/// The symbols of six slots in a row, 128 for none. The first slot begins with the first of these elements.
///
/// Where no element is lost, the compiler knows it, and leaves out what looks for lost ones in each slot.
#[inline(always)]
fn six_shown(planes: &Planes) -> [u8; 6]
    ensures { AreSix planes.now result }
{
    if planes.y | planes.b == u64::MAX {
        six_symbols(planes)
    } else {
        six_beside_lost(planes)
    }
}

/// The same, slot by slot.
#[inline(always)]
fn six_symbols(planes: &Planes) -> [u8; 6]
    ensures { AreSix planes.now result }
{
    [
        symbol_at(planes, 0),
        symbol_at(planes, 10),
        symbol_at(planes, 20),
        symbol_at(planes, 30),
        symbol_at(planes, 40),
        symbol_at(planes, 50),
    ]
}

/// The same, for elements of which some are lost.
#[inline(never)]
fn six_beside_lost(planes: &Planes) -> [u8; 6]
    ensures { AreSix planes.now result }
{
    six_symbols(planes)
}

/// How many windows of six slots from slot 12 on begin inside a reception of this length, at most 22.
fn windows(length: u32, lead: u32) -> u32
    requires length { length ≤ LONGEST }
    requires lead { lead ≤ LAST_LEAD }
    ensures most { result ≤ 22 }
    ensures rest { (k : ℕ) → 3 * result ≤ k → k < 66 → length + LEAD_OF_FIRST ≤ lead + 10 * (12 + 2 * k) }
{
    (length + 30).saturating_sub(lead).div_ceil(60).min(22)
}
