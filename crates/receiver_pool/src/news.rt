//! What is news of the groups of a batch: workers don't post what was known before.
ghost use Rattle.std.specs.Prelude.{◌≡◌, ℕ, ◌<◌, true, length, IfOk, slice_index_or, slice_index, []};
ghost use Rattle.slot_evidence.specs.Facts.{Facts, no_facts};
ghost use Rattle.slot_evidence.specs.Sheet.{IsEnds};
ghost use Rattle.receiver_pool.specs.Groups.{AreAlikeBeyond, AreSheets, known_at};
ghost use Rattle.receiver_pool.specs.inside.Numbers.{AreKnown, KeepNews};

use crate::batches::take_sheet;
use slot_evidence::{Sheet, ends_are_kept, sheet_is_lawful};
use std::alloc::{AllocError, Global};

/// What is known of a group: nothing where there is no sheet with its number.
fn sheet_of(known: &[Sheet], group: usize) -> Sheet
    ensures { (F G : Facts) → AreAlikeBeyond result F G → AreAlikeBeyond (known_at known.now group) F G }
{
    if group < known.len() {
        return known[group];
    }
    Sheet::empty()
}

/// What is known of each of these groups, in their order.
pub(crate) fn known_of(
    alloc: Global,
    known: &[Sheet],
    groups: &[usize],
) -> Result<Vec<Sheet>, AllocError>
    ensures { IfOk result (λ v. AreKnown known.now groups.now v.items) }
{
    let mut sheets = Vec::with_capacity(alloc, groups.len())?;
    for group in groups {
        sheets.push(sheet_of(known, *group))?;
    }
    Ok(sheets)
}

/// Whether a sheet shows nothing beyond what is known.
fn adds_nothing(known: &Sheet, shown: &Sheet) -> bool
    ensures { result ≡ true → (F : Facts) → IsEnds F shown.now → AreAlikeBeyond known.now F no_facts }
{
    ends_are_kept();
    sheet_is_lawful(known);
    let mut all = *known;
    all.meet(shown);
    sheet_is_lawful(&all);
    all == *known
}

/// Leaves what is news in the sheets: one that shows nothing beyond what is known becomes that of no facts.
pub(crate) fn leave_news(sheets: &mut [Sheet], known: &[Sheet])
    ensures { (F : ℕ → Facts) (n : ℕ) → AreSheets F sheets.old n → KeepNews known.now F sheets.new n }
{
    ends_are_kept();
    let count = sheets.len();
    for k in 0..count {
        if k < known.len() && adds_nothing(&known[k], &sheets[k]) {
            take_sheet(sheets, k);
        }
    }
}
