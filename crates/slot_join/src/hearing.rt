//! Laws on receptions of one call: each function here does nothing.
ghost use Rattle.std.specs.Prelude.{◌++◌, ℕ, List, All};
ghost use Rattle.ten_unit.specs.declared.character.Element.{Element};
ghost use Rattle.call_values.specs.declared.calls.Call.{Call};
ghost use Rattle.call_values.specs.Calls.{IsCall};
ghost use Rattle.call_grammar.specs.Spelling.{spell};
ghost use Rattle.slot_evidence.specs.Facts.{facts_of_all};
ghost use Rattle.slot_join.specs.declared.joined.Joined.{Joined};
ghost use Rattle.slot_join.specs.Answer.{IsAnswer};
ghost use Rattle.slot_join.specs.Heard.{IsHeard};
ghost use Rattle.slot_join.specs.Intact.{IsSent, IsSentOrLostPlace, ArrivesInParts};

use crate::laws::{call_or_missing_place, heard_calls_show_no_other};
use call_grammar::{formats_begin_calls, fronts_differ, lists_are_characters, lists_are_short};
use slot_evidence::one_seen;

/// The law on truly phased receptions of one call, wrong in one sense alone in each character. Their answer is the
/// call, with no expansion but the one that was sent after it; or it names a place of the call no copy of which came
/// intact. Where all receptions end with the transmission, the copies of the second and the third end of sequence count
/// for the first too. It does nothing.
pub fn sent_call_is_answered()
    ensures { (receptions : List (List Element)) (call : Call) (tail : List ℕ) (answer : Joined) → IsCall call
        → All (λ reception. IsHeard reception (spell call ++ tail)) receptions
        → IsAnswer (facts_of_all receptions) answer
        → IsSentOrLostPlace receptions call tail answer }
{
    heard_calls_show_no_other();
    call_or_missing_place();
    lists_are_short();
    lists_are_characters();
    expansion::fronts_differ();
    expansion::lists_are_short();
    expansion::lists_are_characters();
}

/// The law that such receptions are answered by the call if every place up to its error check character came intact at
/// some receiver. Distress alerts and calls to all ships need both places of the format specifier; other calls need
/// one. Where all receptions end with the transmission, the second or the third end of sequence is enough.
pub fn intact_copies_report_the_call()
    ensures { (receptions : List (List Element)) (call : Call) (tail : List ℕ) (answer : Joined) → IsCall call
        → All (λ reception. IsHeard reception (spell call ++ tail)) receptions → ArrivesInParts receptions call tail
        → IsAnswer (facts_of_all receptions) answer → IsSent receptions call tail answer }
{
    one_seen();
    fronts_differ();
    formats_begin_calls();
    lists_are_short();
    lists_are_characters();
    heard_calls_show_no_other();
    sent_call_is_answered();
}
