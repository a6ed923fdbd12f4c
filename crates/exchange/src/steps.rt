//! The steps of one end: an event of its own, or a call that the other end sent.
ghost use Rattle.std.specs.Prelude.{◌≡◌, ◌+◌, ◌≤◌, ◌++◌, Some, slice_get, vec_len, vec_capacity};
ghost use Rattle.traffic_rules.specs.Histories.{History};
ghost use Rattle.traffic_rules.specs.Rules.{answer_to};
ghost use Rattle.traffic_rules.specs.Giving.{answer_with};
ghost use Rattle.exchange.specs.WorldRules.{given_by, given_at};
ghost use Rattle.exchange.specs.StandsFor.{given_with};
ghost use Rattle.exchange.specs.inside.Moves.{calls_given, delivery, after_event, IsStillWhere};

use crate::sent::{MOST_SENT, note_sent};
use crate::told::Outcome;
use call_values::Call;
use stations::Station;
use traffic_rules::{Acts, StationRefusal};

/// Notes the calls that an end sent, and answers what it gave.
fn outcome_of(answer: Result<(), StationRefusal>, sent: &mut Vec<Call>, acts: &Acts) -> Outcome
    requires { vec_len sent.old + MOST_SENT ≤ vec_capacity sent.old }
    ensures gave { given_with result acts.now.items ≡ given_by (answer_with answer acts.now.items) }
    ensures sent { sent.new.items ≡ sent.old.items ++ calls_given (given_with result acts.now.items) }
{
    match answer {
        Ok(()) => {
            note_sent(sent, acts);
            Outcome::Done
        }
        Err(refusal) => Outcome::Refused(refusal),
    }
}

/// Gives a station an event, and notes the calls that it sends.
pub(crate) fn step<S: Station>(
    station: &mut S,
    sent: &mut Vec<Call>,
    at: u64,
    what: &S::What,
    acts: &mut Acts,
) -> Outcome
    requires { vec_len sent.old + MOST_SENT ≤ vec_capacity sent.old }
    ensures answer { (who : S.Who) (h : History S.What) → S.stands station.old who h
        → given_with result acts.new.items ≡ given_by (answer_to (S.rules who) h at what.now) }
    ensures stands { (who : S.Who) (h : History S.What) → S.stands station.old who h
        → S.stands station.new who (after_event (Some (at, what.now)) (given_with result acts.new.items) h) }
    ensures sent { sent.new.items ≡ sent.old.items ++ calls_given (given_with result acts.new.items) }
    ensures still { IsStillWhere (given_with result acts.new.items) station.old station.new sent.old.items sent.new.items }
{
    let answer = station.happen(at, what, acts);
    outcome_of(answer, sent, acts)
}

/// Lets a station hear the other's call of this number, if there is one, and notes the calls that it sends.
pub(crate) fn gets<S: Station>(
    station: &mut S,
    sent: &mut Vec<Call>,
    from_other: &[Call],
    at: u64,
    number: u32,
    acts: &mut Acts,
) -> Outcome
    requires { vec_len sent.old + MOST_SENT ≤ vec_capacity sent.old }
    ensures answer { (who : S.Who) (h : History S.What) → S.stands station.old who h
        → given_with result acts.new.items
        ≡ given_at (S.rules who) h at number S.hears (slice_get from_other.now number) }
    ensures stands { (who : S.Who) (h : History S.What) → S.stands station.old who h
        → S.stands station.new who (after_event (delivery S.hears at number from_other.now)
        (given_with result acts.new.items) h) }
    ensures sent { sent.new.items ≡ sent.old.items ++ calls_given (given_with result acts.new.items) }
    ensures still { IsStillWhere (given_with result acts.new.items) station.old station.new sent.old.items sent.new.items }
{
    match from_other.get(number as usize) {
        None => Outcome::Nothing(number),
        Some(call) => step(station, sent, at, &S::heard(*call), acts),
    }
}
