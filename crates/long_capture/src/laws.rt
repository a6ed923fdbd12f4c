//! Laws: each function here does nothing, and its contract is a theorem over definitions.
ghost use Rattle.std.specs.Prelude.{◌≡◌, ℕ, ◌+◌, ◌*◌, ◌≤◌, ◌++◌, [], ◌∷◌, ◌&&◌, nat_le, List, length, Some, Option, option_to_list};
ghost use Rattle.ten_unit.specs.declared.character.Element.{Element};
ghost use Rattle.phasing.specs.Origin.{is_phased};
ghost use Rattle.phasing.specs.Slot.{shows};
ghost use Rattle.call_values.specs.declared.calls.Call.{Call};
ghost use Rattle.call_values.specs.Calls.{IsCall};
ghost use Rattle.call_grammar.specs.Spelling.{spell};
ghost use Rattle.slot_join.specs.declared.joined.Joined.{Joined};
ghost use Rattle.slot_join.specs.Answer.{IsAnswer};
ghost use Rattle.slot_join.specs.Heard.{IsOneWayAt};
ghost use Rattle.slot_join.specs.OneCall.{IsCallOrMissing};
ghost use Rattle.long_capture.specs.declared.captures.Capture.{Capture};
ghost use Rattle.long_capture.specs.declared.starts.Start.{Start};
ghost use Rattle.long_capture.specs.Captures.{decided, StandsFor, Ending};
ghost use Rattle.long_capture.specs.Starts.{before, facts_from, starts_below, starts};
ghost use Rattle.long_capture.specs.Told.{AreQuiet, AreStarts, IsNextStart, Tells};

use crate::bounds::{DECIDING, SEARCHED_AHEAD, TAIL, UNDECIDED, WINDOW};
use call_grammar::lists_are_characters;
use phasing::{elements_decide, none_past_the_end};
use slot_evidence::one_sheet;
use slot_join::call_or_missing_place;
use ten_unit::{one_way_errors_are_seen, words_tell_symbols_apart};
use time_diversity::both_slots_show_the_character;

/// The law that so many elements are looked at.
pub fn numbers_of_elements()
    ensures searched { SEARCHED_AHEAD ≡ 1440 }
    ensures window { WINDOW ≡ 1600 }
    ensures tail { TAIL ≡ 1599 }
    ensures deciding { DECIDING ≡ 1450 }
    ensures undecided { UNDECIDED ≡ 1449 }
{}

/// The law that a stream may end after any of its elements.
pub fn taking_ends()
    ensures { (capture : Capture) (e : List Element) → StandsFor capture e → Ending capture e }
{}

/// The law that the answers of `take` and `finish`, one after another, are the starts of the stream in their order.
pub fn answers_add_up()
    ensures { (e : List Element) (low high : ℕ) (list : List Start) (answer : Option Start)
        → AreStarts e (starts_below e low) list
        → Tells e low high answer → AreStarts e (starts_below e high) (list ++ option_to_list answer) }
{}

/// The law that the starts at leads of a stream are told in one way.
pub fn one_list()
    ensures { (e : List Element) (leads : List ℕ) (a b : List Start) → AreStarts e leads a → AreStarts e leads b
        → a ≡ b }
{
    one_sheet();
}

/// The law that where the leads from one up to another are quiet no start is new, and that after quiet ones the next
/// start alone is.
pub fn starts_go_on()
    ensures quiet { (e : List Element) (low high : ℕ) → AreQuiet e low high → starts_below e high ≡ starts_below e low }
    ensures next { (e : List Element) (low high : ℕ) (start : Start) (is : IsNextStart e low high start)
        → starts_below e high ≡ starts_below e low ++ is.lead ∷ [] }
{}

/// The law that a lead which is decided stays so: 1,600 elements from its origin on decide whether it is phased, and
/// its facts, whatever follows.
pub fn decided_starts_stay()
    ensures phased { (e more : List Element) (lead : ℕ) → lead + DECIDING ≤ length e
        → is_phased (e ++ more) lead ≡ is_phased e lead }
    ensures facts { (e more : List Element) (lead p v : ℕ) → lead + DECIDING ≤ length e
        → facts_from (e ++ more) lead p v ≡ facts_from e lead p v }
    ensures starts { (e more : List Element) (bound : ℕ) → bound ≤ decided (length e)
        → starts_below (e ++ more) bound ≡ starts_below e bound }
{
    elements_decide();
    none_past_the_end();
}

/// The law that before the next start a slot shows what it shows in the stream, if it ends there or before.
pub fn slots_end_in_time()
    ensures { (e : List Element) (lead slot symbol next : ℕ)
        → shows (before e (Some next)) lead slot symbol
        ≡ (nat_le (lead + 10 * slot + 10) next && shows e lead slot symbol) }
{
    elements_decide();
    none_past_the_end();
}

/// The law on a start whose reception is of a list of a call with a tail, wrong in one sense alone: whatever comes
/// before the start and after the next one, the answer to its facts is the call, or names a place of it that showed
/// nothing.
pub fn start_reports_the_call()
    ensures { (e : List Element) (lead : ℕ) (call : Call) (tail : List ℕ) (answer : Joined) → IsCall call
        → IsOneWayAt e (spell call ++ tail) lead
        → IsAnswer (facts_from e lead) answer → IsCallOrMissing (facts_from e lead) call answer }
{
    elements_decide();
    none_past_the_end();
    words_tell_symbols_apart();
    one_way_errors_are_seen();
    both_slots_show_the_character();
    lists_are_characters();
    call_or_missing_place();
}
