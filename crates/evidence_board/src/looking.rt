//! What the shared words say is loaded and kept.
ghost use Rattle.std.specs.Prelude.{◌≡◌, ℕ, ◌+◌, ◌<◌, ◌≤◌, length, slice_set};
ghost use Rattle.std.specs.Mem.Slots.{slots_items, slots_len, IsFull};
ghost use Rattle.slot_evidence.specs.declared.places.Seen.TheVariants as seen;
ghost use Rattle.slot_evidence.specs.TwoNumbers.{seen_between};
ghost use Rattle.slot_evidence.specs.Sheet.{seen_at};
ghost use Rattle.evidence_board.specs.Views.{place_at, kept_of, seen_sheet};
ghost use Rattle.evidence_board.specs.Rule.{words_of};
ghost use Rattle.evidence_board.specs.Seats.{IsResting, IsSeated};
ghost use Rattle.evidence_board.specs.inside.Tells.{Changed};
ghost use Rattle.evidence_board.specs.inside.Through.{Through, LooksAt};

use crate::allowed::Allowed;
use crate::words::{Token, Words};
use atomic_table::Closed;
use slot_evidence::Sheet;
use std::alloc::Global;

/// Takes the ends of a place into a sheet that says nothing of it.
fn keep(sheet: &mut Sheet, p: u8, least: u64, past: u64)
    requires place { p < 64 }
    requires size { length sheet.old ≡ 64 }
    requires unseen { seen_at sheet.old p ≡ seen.None }
    requires order { (least < past) × (past ≤ 128) }
    ensures { sheet.new ≡ slice_set sheet.old p (seen_between least past) }
{
    sheet.add(p, least as u8);
    sheet.add(p, (past - 1) as u8);
}

/// Loads the greatest word of a place, and after it the least one where the greatest isn't empty.
fn look_place<A: Allowed>(words: &Words<A>, token: &mut Token, sheet: &mut Sheet, p: u8)
    requires table { token.old.table ≡ words.now }
    requires place { p < 64 }
    requires alive { 1 ≤ token.old.view.share }
    requires rest { IsResting (place_at token.old.view p).seen }
    requires size { length sheet.old ≡ 64 }
    requires unseen { seen_at sheet.old p ≡ seen.None }
    ensures table { token.new.table ≡ token.old.table }
    ensures place { Changed token.old.view p (place_at token.new.view p) token.new.view }
    ensures looked { LooksAt A.facts p (place_at token.old.view p) (place_at token.new.view p) }
    ensures sheet { sheet.new ≡ slice_set sheet.old p (kept_of (place_at token.new.view p).seen) }
{
    let past = words.load_past(token, p);
    if past == 0 {
        return;
    }
    let least = words.load_least(token, p);
    keep(sheet, p, least, past);
}

/// Loads the words of each place, and answers what they say.
pub(crate) fn look<A: Allowed>(words: &Words<A>, token: &mut Token) -> Sheet
    requires table { token.old.table ≡ words.now }
    requires seated { IsSeated token.old.view }
    ensures table { token.new.table ≡ token.old.table }
    ensures places { Through (LooksAt A.facts) token.old.view token.new.view 64 }
    ensures sheet { result ≡ seen_sheet token.new.view }
{
    let mut sheet = Sheet::empty();
    for p in 0..64u8 {
        look_place(words, token, &mut sheet, p);
    }
    sheet
}

/// What words say that no thread shares any more. The compiler reads several places a step.
pub(crate) fn kept_sheet(closed: &Closed<u8, Global>) -> Sheet
    requires count { (slots_len closed.now.words ≡ 128) × IsFull closed.now.words }
    requires rest { (p : ℕ) → p < 64 → IsResting (words_of (slots_items closed.now.words) p) }
    ensures size { length result ≡ 64 }
    ensures each { (p : ℕ) → p < 64 → seen_at result p ≡ kept_of (words_of (slots_items closed.now.words) p) }
{
    let mut leasts = [0; 64];
    let mut pasts = [0; 64];
    for p in 0..64 {
        leasts[p] = closed.word(p) as u8;
        pasts[p] = closed.word(64 + p) as u8;
    }
    Sheet::between(leasts, pasts)
}
