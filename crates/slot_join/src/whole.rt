//! The answer where the places showed the whole list of a call.
ghost use Rattle.std.specs.Prelude.{IfSome};
ghost use Rattle.slot_evidence.specs.Facts.{Facts};
ghost use Rattle.slot_evidence.specs.Sheet.{IsEnds};
ghost use Rattle.slot_join.specs.Answer.{IsAnswer};

use crate::extras::{read_extra, shown_from};
use crate::joined::Joined;
use call_grammar::{formats_begin_calls, lists_are_short, read};
use slot_evidence::Sheet;

/// The answer where the places from the first one on showed the whole list of a call, each its symbol alone. The list
/// is read once: a walk reads what it has taken anew for each symbol.
pub(crate) fn whole_call(sheet: &Sheet) -> Option<Joined>
    ensures { IfSome result (λ answer. (F : Facts) → IsEnds F sheet.now → IsAnswer F answer) }
{
    formats_begin_calls();
    lists_are_short();
    let shown = shown_from(sheet, 0);
    match read(shown.as_slice()) {
        Ok(whole) => {
            let call = whole.0;
            let length = whole.1;
            let expansion = read_extra(sheet, &call, length as u8 - 3);
            Some(Joined::Reported { call, expansion })
        }
        Err(_) => None,
    }
}
