//! What follows a reported call: nothing, an expansion, or a broken one.
ghost use Rattle.std.specs.Prelude.{◌≡◌, ℕ, ◌+◌, ◌<◌, ◌≤◌, IsTrue, false, length};
ghost use Rattle.call_values.specs.Calls.{IsCall};
ghost use Rattle.call_grammar.specs.Spelling.{spell};
ghost use Rattle.slot_evidence.specs.Facts.{Facts};
ghost use Rattle.slot_evidence.specs.Sheet.{IsEnds, seen_at};
ghost use Rattle.slot_join.specs.Extra.{IsShownFrom, Follows};

use crate::joined::Extra;
use arrayvec::ArrayVec;
use call_grammar::{lists_are_short, own_end};
use call_values::Call;
use expansion::read_checked;
use slot_evidence::{Seen, Sheet};

/// What comes after a call that is shown up to its error check character, at this place: nothing, an expansion up to
/// its own check, or a broken one. It is read with the call's own end of sequence.
pub(crate) fn read_extra(sheet: &Sheet, call: &Call, check_place: u8) -> Extra
    requires lawful { IsCall call.now }
    requires place { length (spell call.now) ≡ check_place + 3 }
    ensures { (F : Facts) → IsEnds F sheet.now → Follows F call.now result }
{
    lists_are_short();
    expansion::fronts_differ();
    expansion::lists_are_short();
    let last = own_end(call);
    let from = check_place + 3;
    if is_blank_from(sheet, from) {
        return Extra::Absent;
    }
    let shown = shown_from(sheet, from);
    match read_checked(shown.as_slice(), last) {
        Ok(expansion) => Extra::Whole(expansion),
        Err(n) => Extra::Broken(from + n as u8),
    }
}

/// Whether no place from this one on showed a symbol. All of them are looked at, since the compiler looks at sixteen in a
/// step then: after most calls all are blank.
fn is_blank_from(sheet: &Sheet, from: u8) -> bool
    ensures blank { IsTrue result → (p : ℕ) → from ≤ p → p < 64 → seen_at sheet.now p ≡ Seen.None }
    ensures some { result ≡ false → (p : ℕ) × ((from ≤ p) × (p < 64) × (seen_at sheet.now p ≡ Seen.None → ⊥)) }
{
    let mut is_blank = true;
    for p in from..64 {
        is_blank &= matches!(sheet.at(p), Seen::None);
    }
    is_blank
}

/// The symbols of the places from this one on, up to the first that didn't show exactly one.
pub(crate) fn shown_from(sheet: &Sheet, from: u8) -> ArrayVec<u8, 64>
    requires { from ≤ 64 }
    ensures shown { (F : Facts) → IsEnds F sheet.now → IsShownFrom F from result.items }
    ensures most { from + length result.items ≤ 64 }
    ensures stops { from + length result.items < 64 → (v : ℕ)
        → seen_at sheet.now (from + length result.items) ≡ Seen.One v → ⊥ }
{
    let mut symbols = ArrayVec::new();
    for p in from..64 {
        let Seen::One(symbol) = sheet.at(p) else {
            return symbols;
        };
        symbols.push(symbol);
    }
    symbols
}
