//! What is due at a heard call at a station of either kind.
ghost use Rattle.std.specs.Prelude.{◌≡◌, ◌<◌, ◌≤◌, ◌∷◌, [], Some, IfSome, IsTrue, OnOk, OnErr, length, position};
ghost use Rattle.traffic_rules.specs.declared.acts.Act.TheVariants as act;
ghost use Rattle.call_values.specs.declared.calls.Call.TheVariants as form;
ghost use Rattle.traffic_rules.specs.Rules.{refusal_or};
ghost use Rattle.traffic_rules.specs.Hearing as hearing;
ghost use Rattle.traffic_rules.specs.After.{after_question, freed_at, after_hearing};
ghost use Rattle.traffic_rules.specs.Giving.{answer_with};

use crate::acts::{Act, Acts, add_act};
use crate::equality::are_equal;
use crate::giving::give;
use crate::held::{HeldCalls, Holding, Side};
use crate::refusals::StationRefusal;
use crate::replies::answers;
use crate::sending::acknowledges;
use call_values::{Call, Category, End, HourMinute, Kind, Mmsi, Position};

/// Does what is due at a heard call that is for the station and is neither a distress alert nor its acknowledgement
/// (this project's profile). A position request is answered with the place that is given, and shown where none is. The
/// acts go into a list that is empty, and stays so where the call is refused.
/// Refused: a call that must be held where no number is free (`Full`).
pub fn hear(
    held: &mut HeldCalls,
    own: Mmsi,
    place: Option<(Position, HourMinute)>,
    call: &Call,
    at: u64,
    acts: &mut Acts,
) -> Result<(), StationRefusal>
    requires { acts.old.items ≡ [] }
    ensures answer { answer_with result acts.new.items
        ≡ refusal_or (hearing.heard_refusal held.old call.now) (hearing.heard_due own place held.old call.now) }
    ensures none { OnErr result (acts.new.items ≡ []) }
    ensures held { OnOk result (held.new ≡ after_hearing held.old call.now at) }
    ensures unchanged { OnErr result (held.new ≡ held.old) }
{
    if is_question(call) {
        return hear_question(held, call, at, acts);
    }
    if acknowledges(call) {
        hear_acknowledgement(held, call, acts);
    } else {
        at_once(own, place, call, acts);
    }
    Ok(())
}

/// Informs the operator of distress, where the call is a relay. Holds the call under the least free number, unless an
/// equal one is held as got.
fn hear_question(
    held: &mut HeldCalls,
    call: &Call,
    at: u64,
    acts: &mut Acts,
) -> Result<(), StationRefusal>
    requires question { IsTrue (hearing.is_question call.now) }
    requires empty { acts.old.items ≡ [] }
    ensures answer { answer_with result acts.new.items
        ≡ refusal_or (hearing.heard_refusal held.old call.now) (hearing.question_due held.old call.now) }
    ensures none { OnErr result (acts.new.items ≡ []) }
    ensures held { OnOk result (held.new ≡ after_question held.old call.now at) }
    ensures unchanged { OnErr result (held.new ≡ held.old) }
{
    if is_got(held, call) {
        tell_distress(call, acts);
        return Ok(());
    }
    let Some(number) = held.hold(*call, Side::Got, at) else {
        return Err(StationRefusal::Full);
    };
    tell_distress(call, acts);
    add_act(acts, Act::Held(number));
    Ok(())
}

/// Frees the least number of a sent call that an acknowledgement answers, or else shows the acknowledgement.
fn hear_acknowledgement(held: &mut HeldCalls, call: &Call, acts: &mut Acts)
    requires { acts.old.items ≡ [] }
    ensures acts { acts.new.items ≡ hearing.answered_or_shown (hearing.answered_number held.old call.now) }
    ensures held { held.new ≡ freed_at (hearing.answered_number held.old call.now) held.old }
{
    match answered_number(held, call) {
        Some(number) => {
            let _ = held.release(number);
            give(acts, Act::Answered(number));
        }
        None => give(acts, Act::Shown),
    }
}

/// Informs the operator of distress, where the call is a relay.
fn tell_distress(call: &Call, acts: &mut Acts)
    requires { acts.old.items ≡ [] }
    ensures acts { acts.new.items ≡ hearing.distress_told call.now }
    ensures few { length acts.new.items ≤ 1 }
{
    match *call {
        Call::Relay { casualty, .. } => give(acts, Act::Distress(casualty)),
        _ => {}
    }
}

/// Whether a call asks the operator: it is a relay or an individual call that asks for an acknowledgement.
fn is_question(call: &Call) -> bool
    ensures { result ≡ hearing.is_question call.now }
{
    match call {
        Call::Relay { ask, .. } => *ask,
        Call::Individual { end, .. } => match end {
            End::Ask => true,
            End::Reply | End::Plain => false,
        },
        _ => false,
    }
}

/// Whether an equal call is held as got.
fn is_got(held: &HeldCalls, call: &Call) -> bool
    ensures { result ≡ hearing.is_got held.now call.now }
{
    held.places().iter().any(|place| is_equal_got(call, place))
}

/// Whether a place holds an equal call that was got.
fn is_equal_got(call: &Call, place: &Option<Holding>) -> bool
    ensures { result ≡ hearing.is_equal_got call.now place.now }
{
    match place {
        Some(held) => match held.side {
            Side::Sent => false,
            Side::Got => are_equal(&held.call, call),
        },
        None => false,
    }
}

/// The least number of a sent call that a heard one answers.
fn answered_number(held: &HeldCalls, call: &Call) -> Option<u8>
    ensures { result ≡ hearing.answered_number held.now call.now }
{
    match first_answered(held.places(), call) {
        Some(index) => Some(index as u8 + 1),
        None => None,
    }
}

/// Whether a place holds a sent call that a heard one answers.
fn is_answered_by(call: &Call, place: &Option<Holding>) -> bool
    ensures { result ≡ hearing.is_answered_by call.now place.now }
{
    match place {
        Some(held) => match held.side {
            Side::Sent => answers(&held.call, call),
            Side::Got => false,
        },
        None => false,
    }
}

/// Does what is due at once at a call that is neither a question nor an acknowledgement.
fn at_once(own: Mmsi, place: Option<(Position, HourMinute)>, call: &Call, acts: &mut Acts)
    requires { acts.old.items ≡ [] }
    ensures { acts.new.items ≡ hearing.due_at_once own place call.now }
{
    match *call {
        Call::Alert(_) | Call::Ack { .. } => {}
        Call::Relay { casualty, .. } => give(acts, Act::Distress(casualty)),
        Call::Service {
            category,
            from,
            kind,
            ..
        } => match kind {
            Kind::Test { .. } => give(
                acts,
                service(own, from, category, Kind::Test { reply: true }),
            ),
            Kind::AskPosition => tell_position(own, place, from, category, acts),
            Kind::Position(_, _) => give(acts, Act::Shown),
        },
        _ => give(acts, Act::Shown),
    }
}

/// A call of this station to one station.
fn service(own: Mmsi, to: Mmsi, category: Category, kind: Kind) -> Act
    ensures { result ≡ act.Send (form.Service to category own kind) 1 }
{
    Act::Send {
        call: Call::Service {
            to,
            category,
            from: own,
            kind,
        },
        times: 1,
    }
}

/// Answers a position request with a place; without one it is shown.
fn tell_position(
    own: Mmsi,
    place: Option<(Position, HourMinute)>,
    to: Mmsi,
    category: Category,
    acts: &mut Acts,
)
    requires { acts.old.items ≡ [] }
    ensures { acts.new.items ≡ hearing.position_told own place to category }
{
    match place {
        Some((position, time)) => give(
            acts,
            service(own, to, category, Kind::Position(position, time)),
        ),
        None => give(acts, Act::Shown),
    }
}

/// The index of the first place that holds a sent call that a heard one answers.
fn first_answered(places: &[Option<Holding>], call: &Call) -> Option<usize>
    ensures value { result ≡ position (hearing.is_answered_by call.now) places.now }
    ensures range { IfSome result (λ index. index < length places.now) }
{
    places.iter().position(|place| is_answered_by(call, place))
}
