//! The answer to a sheet, place by place from the format specifier on.
ghost use Rattle.std.specs.Prelude.{◌≡◌, ◌⊎◌, ◌<◌, ◌↔◌, ℕ, IsTrue, IfSome, IsNone, true, length, [], ◌∷◌};
ghost use Rattle.call_grammar.specs.Walk.{IsOpen, IsAtEnd, IsAtCheck};
ghost use Rattle.dsc_symbols.specs.Formats.{IsFormat};
ghost use Rattle.slot_evidence.specs.Facts.{Facts};
ghost use Rattle.slot_evidence.specs.Seen.{IsSeen, IsLawful, ShowsNone, ShowsOne};
ghost use Rattle.slot_evidence.specs.Sheet.{IsEnds, seen_at};
ghost use Rattle.slot_join.specs.Shown.{head_of, late_of, IsShown, IsShownLate};
ghost use Rattle.slot_join.specs.Answer as answers;
ghost use Rattle.slot_join.specs.Answer.{IsAnswer, IsReported, IsStopped, BehindFormat};

use crate::extras::read_extra;
use crate::joined::Joined;
use crate::whole::whole_call;
use call_grammar::{
    Step, Walk, formats_begin_calls, fronts_differ, lists_are_short, one_check_place,
    one_end_place, open_is_not_done,
};
use dsc_symbols::formats::{ALL_SHIPS, DISTRESS};
use slot_evidence::{Seen, Sheet};

/// The answer to every set of facts that has this sheet: it reads the places one after the other, until one shows no
/// symbol, several, or one with which no call goes on, or until a call has its right error check character. Only the
/// first end of sequence may be known from its later copies. A call whose whole list was shown is read in one go.
pub fn report(sheet: &Sheet) -> Joined
    ensures { (F : Facts) → IsEnds F sheet.now → IsAnswer F result }
{
    if let Some(answer) = whole_call(sheet) {
        return answer;
    }
    match head(sheet) {
        Seen::None => Joined::Missing(0),
        Seen::Differ(least, greatest) => Joined::Differ(0, least, greatest),
        Seen::One(format) => behind_format(sheet, format),
    }
}

/// What the two places of the format specifier showed together.
fn head(sheet: &Sheet) -> Seen
    ensures together { (F : Facts) → IsEnds F sheet.now → IsSeen (head_of F) result }
    ensures lawful { IsLawful result }
{
    sheet.at(0).meet(sheet.at(1))
}

/// Calls in which each of the two places of the format specifier must have shown it.
fn needs_both(format: u8) -> bool
    ensures { result ≡ answers.needs_both format }
{
    format == DISTRESS || format == ALL_SHIPS
}

/// The answer where this is the one format specifier that its two places showed.
fn behind_format(sheet: &Sheet, format: u8) -> Joined
    requires { format < 128 }
    ensures { (F : Facts) → IsEnds F sheet.now → ShowsOne (head_of F) format → BehindFormat F format result }
{
    formats_begin_calls();
    let mut walk = Walk::start();
    let Step::More = walk.take(format) else {
        return Joined::Outside(0, format);
    };
    if needs_both(format) {
        behind_both(sheet, format, walk)
    } else {
        follow(sheet, walk)
    }
}

/// The answer where each of the two places must have shown this format specifier.
fn behind_both(sheet: &Sheet, format: u8, walk: Walk) -> Joined
    requires is_format { IsFormat format }
    requires both { answers.needs_both format ≡ true }
    requires taken { walk ≡ format ∷ format ∷ [] }
    requires open { IsOpen walk }
    ensures { (F : Facts) → IsEnds F sheet.now → ShowsOne (head_of F) format → BehindFormat F format result }
{
    if is_blank(sheet, 0) {
        return Joined::Missing(0);
    }
    if is_blank(sheet, 1) {
        return Joined::Missing(1);
    }
    follow(sheet, walk)
}

/// Whether this place showed nothing.
fn is_blank(sheet: &Sheet, p: u8) -> bool
    requires { p < 64 }
    ensures { IsTrue result ↔ (seen_at sheet.now p ≡ Seen.None) }
{
    matches!(sheet.at(p), Seen::None)
}

/// What the places of the second and the third end of sequence showed together, where the first is at place n.
fn later_ends(sheet: &Sheet, n: u8) -> Seen
    requires { n < 32 }
    ensures together { (F : Facts) → IsEnds F sheet.now → IsSeen (late_of F n) result }
    ensures lawful { IsLawful result }
{
    sheet.at(n + 2).meet(sheet.at(n + 3))
}

/// The end of sequence that its later copies alone show, where the first is wanted at this place.
fn late_end(sheet: &Sheet, walk: &Walk, n: u8) -> Option<u8>
    requires { n < 32 }
    ensures at_end { IfSome result (λ end. IsAtEnd walk.now) }
    ensures symbol { IfSome result (λ end. end < 128) }
    ensures copies { IfSome result (λ end. (F : Facts) → IsEnds F sheet.now → ShowsOne (late_of F n) end) }
    ensures none { IsNone result → (F : Facts) → IsEnds F sheet.now → IsAtEnd walk.now → (end : ℕ)
        → ShowsOne (late_of F n) end → ⊥ }
{
    if !walk.wants_end() {
        return None;
    }
    let Seen::One(end) = later_ends(sheet, n) else {
        return None;
    };
    Some(end)
}

/// The answer where this place, after the list that was taken, showed nothing: it is missing, unless the first end of
/// sequence is wanted there and its later copies show one that goes on.
fn behind_blank(sheet: &Sheet, mut walk: Walk, n: u8) -> Joined
    requires taken { length walk ≡ n }
    requires open { IsOpen walk }
    ensures { (F : Facts) → IsEnds F sheet.now → ShowsNone (F n) → IsShown F walk → (IsShownLate F walk → ⊥)
        → IsReported F result ⊎ IsStopped F result }
{
    fronts_differ();
    lists_are_short();
    open_is_not_done();
    one_check_place();
    one_end_place();
    let Some(end) = late_end(sheet, &walk, n) else {
        return Joined::Missing(n);
    };
    let Step::More = walk.take(end) else {
        return Joined::Missing(n);
    };
    behind_late_end(sheet, walk, n + 1)
}

/// The answer where a late end of sequence was taken, and this is the place of the error check character. Where that is
/// not the right one, the late end may be noise, and its place is missing.
fn behind_late_end(sheet: &Sheet, mut walk: Walk, n: u8) -> Joined
    requires taken { length walk ≡ n }
    requires open { IsOpen walk }
    requires check { IsAtCheck walk }
    ensures { (F : Facts) → IsEnds F sheet.now → IsShown F walk → IsShownLate F walk
        → IsReported F result ⊎ IsStopped F result }
{
    fronts_differ();
    lists_are_short();
    open_is_not_done();
    one_check_place();
    let check = match sheet.at(n) {
        Seen::None => return Joined::Missing(n),
        Seen::Differ(least, greatest) => return Joined::Differ(n, least, greatest),
        Seen::One(check) => check,
    };
    let Step::Done(call) = walk.take(check) else {
        return Joined::Missing(n - 1);
    };
    let expansion = read_extra(sheet, &call, n);
    Joined::Reported { call, expansion }
}

/// The answer where the format specifier was taken: a call, or the first place where none goes on.
fn follow(sheet: &Sheet, mut walk: Walk) -> Joined
    requires taken { length walk ≡ 2 }
    requires open { IsOpen walk }
    ensures { (F : Facts) → IsEnds F sheet.now → IsShown F walk → IsReported F result ⊎ IsStopped F result }
{
    fronts_differ();
    lists_are_short();
    open_is_not_done();
    for n in 2..64 {
        let symbol = match sheet.at(n) {
            Seen::None => return behind_blank(sheet, walk, n),
            Seen::Differ(least, greatest) => return Joined::Differ(n, least, greatest),
            Seen::One(symbol) => symbol,
        };
        match walk.take(symbol) {
            Step::More => {}
            Step::Done(call) => {
                let expansion = read_extra(sheet, &call, n);
                return Joined::Reported { call, expansion };
            }
            Step::Outside => return Joined::Outside(n, symbol),
            Step::Check { want, got } => return Joined::Check { n, want, got },
        }
    }
    unreachable!()
}
