//! What a sheet keeps is posted on the shared words.
ghost use Rattle.std.specs.Prelude.{◌≡◌, ℕ, ◌+◌, ◌<◌, ◌≤◌};
ghost use Rattle.slot_evidence.specs.Sheet.{seen_at};
ghost use Rattle.slot_evidence.specs.Allowed.{IsAllowed, OnlyAllowed};
ghost use Rattle.evidence_board.specs.Views.{place_at};
ghost use Rattle.evidence_board.specs.Seats.{IsSeated};
ghost use Rattle.evidence_board.specs.Steps.{posted_least, posted_past, admitted};
ghost use Rattle.evidence_board.specs.inside.Tells.{Changed};
ghost use Rattle.evidence_board.specs.inside.Through.{Through};

use crate::allowed::Allowed;
use crate::words::{Token, Words};
use slot_evidence::Sheet;

/// Posts the least and the greatest symbol of a place, the least one first.
fn post_ends<A: Allowed>(words: &Words<A>, token: &mut Token, p: u8, least: u8, greatest: u8)
    requires table { token.old.table ≡ words.now }
    requires place { p < 64 }
    requires alive { 1 ≤ token.old.view.share }
    requires least { IsAllowed A.facts p least }
    requires greatest { IsAllowed A.facts p greatest }
    requires order { least ≤ greatest }
    ensures table { token.new.table ≡ token.old.table }
    ensures place { Changed token.old.view p
        (posted_past (greatest + 1) (posted_least least (place_at token.old.view p))) token.new.view }
{
    words.lower(token, p, least);
    words.raise(token, p, greatest);
}

/// Posts what a sheet keeps of a place, and makes no step where it keeps nothing.
fn post_place<A: Allowed>(words: &Words<A>, token: &mut Token, p: u8, sheet: &Sheet)
    requires table { token.old.table ≡ words.now }
    requires place { p < 64 }
    requires alive { 1 ≤ token.old.view.share }
    requires small { ((place_at token.old.view p).given.least ≤ 128) × ((place_at token.old.view p).seen.least ≤ 128) }
    requires allowed { OnlyAllowed A.facts sheet.now }
    ensures table { token.new.table ≡ token.old.table }
    ensures place { Changed token.old.view p (admitted (seen_at sheet.now p) (place_at token.old.view p)) token.new.view }
{
    let (least, past) = sheet.ends_at(p);
    if past == 0 {
        return;
    }
    post_ends(words, token, p, least, past - 1);
}

/// Posts what is kept of each place.
pub(crate) fn post<A: Allowed>(words: &Words<A>, token: &mut Token, sheet: &Sheet)
    requires table { token.old.table ≡ words.now }
    requires seated { IsSeated token.old.view }
    requires allowed { OnlyAllowed A.facts sheet.now }
    ensures table { token.new.table ≡ token.old.table }
    ensures places { Through (λ p before after. after
        ≡ admitted (seen_at sheet.now p) before) token.old.view token.new.view 64 }
{
    for p in 0..64u8 {
        post_place(words, token, p, sheet);
    }
}
