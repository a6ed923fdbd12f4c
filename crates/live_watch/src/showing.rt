//! Whether a sheet shows a call, and what it reports.
ghost use Rattle.std.specs.Prelude.{◌≡◌, ◌↔◌, ℕ, ◌+◌, ◌<◌, ◌≤◌, ◌||◌, length, true, false, None, Some, IfOk, IfErr};
ghost use Rattle.call_grammar.specs.Spelling.{spell as spelled};
ghost use Rattle.slot_evidence.specs.Facts.{Facts};
ghost use Rattle.slot_evidence.specs.Sheet.{IsEnds, facts_in};
ghost use Rattle.live_watch.specs.Told.{IsReportOf, IsShownAt, IsTold, IsToTell, IsWatched};

use crate::laws::told_calls;
use call_grammar::{end_of, format_of, lists_are_short, spell};
use call_values::Call;
use slot_evidence::{Seen, Sheet, sheet_has_facts, sheet_is_lawful};
use slot_join::{Joined, one_answer, report};

/// Whether a sheet keeps this symbol of a place.
fn keeps(sheet: &Sheet, place: usize, symbol: u8) -> bool
    requires { place < 64 }
    ensures { result ≡ facts_in sheet.now place symbol }
{
    match sheet.at(place as u8) {
        Seen::None => false,
        Seen::One(only) => symbol == only,
        Seen::Differ(least, greatest) => symbol == least || symbol == greatest,
    }
}

/// Whether a sheet keeps this symbol of one of two places.
fn either_keeps(sheet: &Sheet, first: usize, second: usize, symbol: u8) -> bool
    requires { (first < 64) × (second < 64) }
    ensures { result ≡ (facts_in sheet.now first symbol || facts_in sheet.now second symbol) }
{
    keeps(sheet, first, symbol) || keeps(sheet, second, symbol)
}

/// Whether a sheet keeps a call's symbol of a place of its list; of that of the first end of sequence, those of the
/// second and the third may show it too.
fn shows_place(sheet: &Sheet, call: &Call, list: &[u8], place: usize) -> bool
    requires list { list.now ≡ spelled call.now }
    requires short { length list.now ≤ 32 }
    requires place { place + 2 < length list.now }
    ensures shown { result ≡ true → IsShownAt (facts_in sheet.now) call.now place }
    ensures hidden { result ≡ false → IsShownAt (facts_in sheet.now) call.now place → ⊥ }
{
    if keeps(sheet, place, list[place]) {
        return true;
    }
    if place + 4 == list.len() {
        return either_keeps(sheet, place + 2, place + 3, end_of(call));
    }
    false
}

/// Whether a sheet shows a call: for each place up to the error check character it keeps the call's symbol. Then, and
/// only then, the call may be told of what the sheet keeps; and so it may be told of all facts whose ends the sheet
/// keeps.
pub fn shows_call(sheet: &Sheet, call: &Call) -> bool
    ensures shown { result ≡ true → IsTold (facts_in sheet.now) call.now }
    ensures hidden { result ≡ false → IsTold (facts_in sheet.now) call.now → ⊥ }
    ensures told { result ≡ true → (F : Facts) → IsEnds F sheet.now → IsTold F call.now }
{
    told_calls();
    call.lawful();
    lists_are_short();
    if !either_keeps(sheet, 0, 1, format_of(call)) {
        return false;
    }
    let list = spell(call);
    for place in 2..list.len() - 2 {
        if !shows_place(sheet, call, &list, place) {
            return false;
        }
    }
    true
}

/// The call to report of a sheet's facts: the one that a watcher saw, where the sheet shows it, and else the one that
/// the sheet reports. There is none only where the facts report none.
pub fn call_to_tell(sheet: &Sheet, seen: Option<Call>) -> Option<Call>
    ensures watched { (F : Facts) → IsEnds F sheet.now → IsWatched F result }
    ensures exact { IsToTell (facts_in sheet.now) seen result }
{
    sheet_has_facts(sheet);
    told_calls();
    if let Some(call) = seen {
        if shows_call(sheet, &call) {
            return Some(call);
        }
    }
    reported(sheet)
}

/// A sheet of which is known that it reports no call.
#[derive(Drop)]
pub struct Unreported {
    sheet: Sheet,
    ghost none: { (F : Facts) → IsEnds F sheet → IsWatched F None },
}

impl Unreported {
    /// Whether this is the sheet: then nothing is to be told of it.
    pub fn is_of(&self, sheet: &Sheet) -> bool
        ensures { result ≡ true → IsReportOf sheet.now None }
    {
        sheet_is_lawful(sheet);
        sheet_is_lawful(&self.sheet);
        *sheet == self.sheet
    }

    /// The same sheet once more.
    pub fn again(&self) -> Unreported {
        Unreported { sheet: self.sheet }
    }
}

/// The call to report of a sheet's facts, as `call_to_tell` finds it, or that there is none.
pub fn judge(sheet: &Sheet, seen: Option<Call>) -> Result<Call, Unreported>
    ensures call { IfOk result (λ call. (F : Facts) → IsEnds F sheet.now → IsWatched F (Some call)) }
    ensures exact { IfOk result (λ call. IsToTell (facts_in sheet.now) seen (Some call)) }
    ensures none { IfErr result (λ unreported. (unreported.sheet ≡ sheet.now)
        × IsToTell (facts_in sheet.now) seen None) }
{
    match call_to_tell(sheet, seen) {
        Some(call) => Ok(call),
        None => Err(Unreported { sheet: *sheet }),
    }
}

/// The call that a sheet reports, or that it reports none.
pub(crate) fn reports(sheet: &Sheet) -> Result<Call, Unreported>
    ensures call { IfOk result (λ call. IsReportOf sheet.now (Some call)) }
    ensures none { IfErr result (λ unreported. unreported.sheet ≡ sheet.now) }
{
    match reported(sheet) {
        Some(call) => Ok(call),
        None => Err(Unreported { sheet: *sheet }),
    }
}

/// The call that a sheet reports, if any.
fn reported(sheet: &Sheet) -> Option<Call>
    ensures { IsReportOf sheet.now result }
{
    one_answer();
    match report(sheet) {
        Joined::Reported { call, .. } => Some(call),
        _ => None,
    }
}
