//! Which calls an operator may send, and what is due where one does.
ghost use Rattle.std.specs.Prelude.{◌≡◌, [], ◌∷◌, OnOk, OnErr};
ghost use Rattle.traffic_rules.specs.declared.acts.Act.TheVariants as act;
ghost use Rattle.traffic_rules.specs.Rules.{refusal_or};
ghost use Rattle.traffic_rules.specs.Giving.{answer_with};
ghost use Rattle.traffic_rules.specs.Sending as sending;
ghost use Rattle.traffic_rules.specs.After.{after_sending};

use crate::acts::{Act, Acts, add_act};
use crate::giving::give;
use crate::held::{HeldCalls, Side};
use crate::refusals::StationRefusal;
use call_grammar::end_of;
use call_values::{Call, Kind, Mmsi};
use dsc_symbols::ends;

/// Sends a call that the operator gives, once, and holds it where it asks for an acknowledgement (this project's
/// profile). The acts go into a list that is empty, and stays so where the call is refused. Refused: a call that an
/// operator of this station may not send (`NotSendable`), or else one that must be held where no number is free
/// (`Full`).
pub fn send(
    held: &mut HeldCalls,
    own: Mmsi,
    call: &Call,
    at: u64,
    acts: &mut Acts,
) -> Result<(), StationRefusal>
    requires { acts.old.items ≡ [] }
    ensures answer { answer_with result acts.new.items
        ≡ refusal_or (sending.send_refusal own held.old call.now) (sending.send_due held.old call.now) }
    ensures none { OnErr result (acts.new.items ≡ []) }
    ensures held { OnOk result (held.new ≡ after_sending held.old call.now at) }
    ensures unchanged { OnErr result (held.new ≡ held.old) }
{
    if !is_sendable(own, call) {
        return Err(StationRefusal::NotSendable);
    }
    if !asks(call) {
        give_call(call, acts);
        return Ok(());
    }
    let Some(number) = held.hold(*call, Side::Sent, at) else {
        return Err(StationRefusal::Full);
    };
    give_call(call, acts);
    add_act(acts, Act::Held(number));
    Ok(())
}

/// Gives the sending of a call, once.
fn give_call(call: &Call, acts: &mut Acts)
    requires { acts.old.items ≡ [] }
    ensures { acts.new.items ≡ act.Send call.now 1 ∷ [] }
{
    give(
        acts,
        Act::Send {
            call: *call,
            times: 1,
        },
    );
}

/// Whether a call asks for an acknowledgement (ITU-R M.493, end of sequence).
pub(crate) fn asks(call: &Call) -> bool
    ensures { result ≡ sending.asks call.now }
{
    end_of(call) == ends::ACKNOWLEDGE_RQ
}

/// Whether a call gives an acknowledgement (ITU-R M.493, end of sequence).
pub(crate) fn acknowledges(call: &Call) -> bool
    ensures { result ≡ sending.acknowledges call.now }
{
    end_of(call) == ends::ACKNOWLEDGE_BQ
}

/// Whether a station sends a call by its own rules alone.
fn is_by_rule(call: &Call) -> bool
    ensures { result ≡ sending.is_by_rule call.now }
{
    match call {
        Call::Alert(_) | Call::Ack { .. } | Call::RelayAck { .. } => true,
        Call::Service { kind, .. } => match kind {
            Kind::Position(_, _) => true,
            Kind::Test { .. } | Kind::AskPosition => false,
        },
        _ => false,
    }
}

/// Whether an operator of this station may send a call.
fn is_sendable(own: Mmsi, call: &Call) -> bool
    ensures { result ≡ sending.is_sendable own call.now }
{
    !is_by_rule(call) && call.sender().number() == own.number() && !acknowledges(call)
}
