//! Laws: each function here does nothing, and its contract is a theorem over definitions.
ghost use Rattle.std.specs.Prelude.{◌≡◌, ◌+◌, ◌<◌, ◌≤◌, ◌++◌, ◌↔◌, ℕ, Bool, true, false, List, length, slice_index, Some, All, pos, ◌-ℤ◌};
ghost use Rattle.call_grammar.specs.Spelling.{spell, through_check};
ghost use Rattle.call_values.specs.Calls.{IsCall};
ghost use Rattle.call_values.specs.declared.calls.Call.{Call};
ghost use Rattle.expansion.specs.declared.values.Sets.{Sets};
ghost use Rattle.phasing.specs.Origin.{lead_of, origin_of};
ghost use Rattle.phasing.specs.Sent.{sent};
ghost use Rattle.phasing.specs.Start.{IsIntactStart};
ghost use Rattle.slot_evidence.specs.Alike.{AreAlike};
ghost use Rattle.slot_evidence.specs.Allowed.{OnlyAllowed};
ghost use Rattle.slot_evidence.specs.Facts.{Facts, facts_of, union};
ghost use Rattle.slot_evidence.specs.Sheet.{IsEnds, facts_in};
ghost use Rattle.slot_evidence.specs.declared.places.Seen.{Seen};
ghost use Rattle.slot_join.specs.Answer.{IsAnswer};
ghost use Rattle.slot_join.specs.Heard.{IsOneWayAt, IsTrulyPhased, IsHeard};
ghost use Rattle.slot_join.specs.Intact.{ArrivesIntact, EndsWithin, IsExpandedBy};
ghost use Rattle.slot_join.specs.OneCall.{ShowsNoOther, IsCallOrMissing, AreOneCalls};
ghost use Rattle.slot_join.specs.declared.joined.Extra.TheVariants.{Absent, Whole};
ghost use Rattle.slot_join.specs.declared.joined.Joined.TheVariants.{Reported};
ghost use Rattle.slot_join.specs.declared.joined.Joined.{Joined};
ghost use Rattle.ten_unit.specs.declared.character.Element.{Element};
ghost use Rattle.time_diversity.specs.OnAir.{on_air};

use call_grammar::{
    checks_tell_ends, formats_begin_calls, fronts_differ, lists_are_characters, lists_are_short,
    one_check_place, one_end_place,
};
use phasing::{LEAD_OF_FIRST, late_starts_are_found, whole_calls_are_found};
use slot_evidence::{ends_are_kept, one_seen};
use ten_unit::{one_way_errors_are_seen, words_tell_symbols_apart};
use time_diversity::both_slots_show_the_character;

/// The law that a set of facts has one answer.
pub fn one_answer()
    ensures { (F : Facts) (a b : Joined) → IsAnswer F a → IsAnswer F b → a ≡ b }
{
    one_seen();
    fronts_differ();
    expansion::fronts_differ();
    lists_are_short();
}

/// The law that the ends that a sheet keeps of facts give the answer that the facts give, whatever other facts are
/// known beside them.
pub fn ends_give_the_answer()
    ensures { (F G : Facts) (sheet : List Seen) (answer : Joined) → IsEnds F sheet
        → (IsAnswer (union F G) answer ↔ IsAnswer (union (facts_in sheet) G) answer) }
{
    ends_are_kept();
}

/// The law that no set of facts lacks an answer, where its symbols are characters'.
pub fn no_answer_is_lacking()
    ensures { (F : Facts) → ((p v : ℕ) → F p v ≡ true → v < 128) → ((answer : Joined) → IsAnswer F answer → ⊥) → ⊥ }
{
    formats_begin_calls();
    lists_are_short();
    expansion::lists_are_short();
}

/// The law that facts which are alike at each place have the same answers.
pub fn alike_facts_have_one_answer()
    ensures { (F G : Facts) (answer : Joined) → ((p : ℕ) → AreAlike (F p) (G p)) → IsAnswer F answer
        → IsAnswer G answer }
{
    ends_are_kept();
}

/// The law that a call whose slots all arrive intact at the origin is reported: alone, where the reception ends with
/// its transmission, and with its expansion, where one was sent after it. No other answer comes.
pub fn intact_call_is_reported()
    ensures alone { (call : Call) (reception : List Element) (answer : Joined) → IsCall call
        → ArrivesIntact reception (spell call)
        → EndsWithin reception (spell call) → IsAnswer (facts_of reception) answer → answer ≡ Reported call Absent }
    ensures expanded { (call : Call) (tail : List ℕ) (x : Sets) (reception : List Element) (answer : Joined)
        → IsCall call → IsExpandedBy call tail x
        → ArrivesIntact reception (spell call ++ tail) → IsAnswer (facts_of reception) answer
        → answer ≡ Reported call (Whole x) }
{
    one_seen();
    fronts_differ();
    formats_begin_calls();
    lists_are_short();
    lists_are_characters();
    expansion::fronts_differ();
    expansion::lists_are_short();
    expansion::lists_are_characters();
    both_slots_show_the_character();
    words_tell_symbols_apart();
}

/// The law that a call's transmission, after either dot pattern, has this call as its one answer: alone, and with the
/// expansion that is sent after it.
pub fn transmissions_are_answered()
    ensures alone { (call : Call) (long : Bool) (answer : Joined) → IsCall call
        → IsAnswer (facts_of (sent (on_air (spell call)) long)) answer → answer ≡ Reported call Absent }
    ensures expanded { (call : Call) (tail : List ℕ) (x : Sets) (long : Bool) (answer : Joined) → IsCall call
        → IsExpandedBy call tail x
        → IsAnswer (facts_of (sent (on_air (spell call ++ tail)) long)) answer → answer ≡ Reported call (Whole x) }
{
    intact_call_is_reported();
    whole_calls_are_found();
}

/// The law that a call is found at its origin where its start is intact but for lost elements, however late the
/// reception begins and whatever follows the call: the origin, which is what `origin` answers, is 150 below the lead.
pub fn late_calls_are_found()
    ensures lead { (call : Call) (tail : List ℕ) (reception : List Element) (long : Bool) (lead : ℕ)
        → IsIntactStart reception (on_air (spell call ++ tail)) long lead → lead_of reception ≡ Some lead }
    ensures origin { (call : Call) (tail : List ℕ) (reception : List Element) (long : Bool) (lead : ℕ)
        → IsIntactStart reception (on_air (spell call ++ tail)) long lead
        → origin_of reception ≡ Some (pos lead -ℤ pos LEAD_OF_FIRST) }
{
    late_starts_are_found();
}

/// The law that a true origin can be named for every reception in which none is found: at one past the reception's end
/// no slot is inside of it. So where each reception has an origin at which it is one-way, and which is the one that is
/// found or none is found, each is heard.
pub fn unphased_receptions_are_heard()
    ensures named { (reception : List Element) (list : List ℕ) → (lead : ℕ) × IsOneWayAt reception list lead }
    ensures heard { (reception : List Element) (list : List ℕ) (lead : ℕ) → IsOneWayAt reception list lead
        → IsTrulyPhased reception lead → IsHeard reception list }
{}

/// The law on truly phased receptions that went wrong in one sense alone, character by character. Those of a call show
/// no other symbols than the call's at its places up to the error check character. Those of any list's transmission
/// show no other symbols than the list's, but for its last two places, of which only one copy is sent. A reception that
/// ends with the transmission shows no other there either, and nothing past them.
pub fn heard_calls_show_no_other()
    ensures call { (call : Call) (tail : List ℕ) (reception : List Element) → IsCall call
        → IsHeard reception (spell call ++ tail)
        → ShowsNoOther (facts_of reception) (through_check call) }
    ensures list { (list : List ℕ) (reception : List Element) (p v : ℕ) → All (λ symbol. symbol < 128) list
        → IsHeard reception list
        → p + 2 < length list → facts_of reception p v ≡ true → v ≡ slice_index list p }
    ensures within { (list : List ℕ) (reception : List Element) (p v : ℕ) → IsHeard reception list
        → EndsWithin reception list
        → p < length list → slice_index list p < 128 → facts_of reception p v ≡ true → v ≡ slice_index list p }
    ensures past { (list : List ℕ) (reception : List Element) (p v : ℕ) → EndsWithin reception list → length list ≤ p
        → facts_of reception p v ≡ false }
{
    words_tell_symbols_apart();
    one_way_errors_are_seen();
    both_slots_show_the_character();
    lists_are_characters();
}

/// The law that where the places of a call, up to its error check character, showed no other symbols than the call's,
/// the answer is the call, or names as missing a place of it that showed nothing. Its first end of sequence is missing
/// only where those of the second and the third showed nothing either, or another symbol.
pub fn call_or_missing_place()
    ensures { (F : Facts) (call : Call) (answer : Joined) → IsCall call → ShowsNoOther F (through_check call)
        → IsAnswer F answer
        → IsCallOrMissing F call answer }
{
    one_check_place();
    one_end_place();
    checks_tell_ends();
    formats_begin_calls();
}

/// The law on a board on which one call's facts alone may be posted. Whatever a look at it shows, the answer is the
/// call, or names as missing a place of it that showed nothing. The sheet of every truly phased reception of the call
/// with one-way errors may be posted there.
pub fn looks_report_the_call()
    ensures looked { (facts : List (ℕ × ℕ)) (call : Call) (tail : List ℕ) (sheet : List Seen) (answer : Joined)
        → IsCall call → AreOneCalls facts call tail
        → OnlyAllowed facts sheet → IsAnswer (facts_in sheet) answer → IsCallOrMissing (facts_in sheet) call answer }
    ensures admitted { (facts : List (ℕ
        × ℕ)) (call : Call) (tail : List ℕ) (reception : List Element) (sheet : List Seen) → IsCall call
        → All (λ symbol. symbol < 128) tail
        → AreOneCalls facts call tail → IsHeard reception (spell call ++ tail) → IsEnds (facts_of reception) sheet
        → OnlyAllowed facts sheet }
{
    call_or_missing_place();
    heard_calls_show_no_other();
    lists_are_characters();
}
