//! Which heard calls answer a sent one.
ghost use Rattle.std.specs.Prelude.{◌≡◌};
ghost use Rattle.traffic_rules.specs.Replies as replies;

use call_values::{Call, End, Kind, Mmsi};

/// Whether a heard call answers a sent one (this project's profile). A relay is answered by the acknowledgement of a
/// relay of the same casualty; an individual call, a test or a position request by the reply of the station that it was
/// sent to.
pub fn answers(sent: &Call, heard: &Call) -> bool
    ensures { result ≡ replies.answers sent.now heard.now }
{
    match *sent {
        Call::Relay { casualty, .. } => is_relay_ack(casualty.mmsi, heard),
        Call::Individual { to, .. } => is_individual_reply(to, heard),
        Call::Service { to, kind, .. } => match kind {
            Kind::Test { reply } => !reply && is_test_reply(to, heard),
            Kind::AskPosition => is_position_answer(to, heard),
            Kind::Position(_, _) => false,
        },
        _ => false,
    }
}

/// Whether a heard call acknowledges the relay of this casualty, whoever sent it.
fn is_relay_ack(casualty: Mmsi, heard: &Call) -> bool
    ensures { result ≡ replies.is_relay_ack casualty heard.now }
{
    match *heard {
        Call::RelayAck {
            casualty: named,
            ..
        } => named.mmsi.number() == casualty.number(),
        _ => false,
    }
}

/// Whether a heard call is this station's individual call that gives an acknowledgement.
fn is_individual_reply(station: Mmsi, heard: &Call) -> bool
    ensures { result ≡ replies.is_individual_reply station heard.now }
{
    match *heard {
        Call::Individual { from, end, .. } => match end {
            End::Reply => from.number() == station.number(),
            End::Ask | End::Plain => false,
        },
        _ => false,
    }
}

/// Whether a heard call is this station's reply to a test.
fn is_test_reply(station: Mmsi, heard: &Call) -> bool
    ensures { result ≡ replies.is_test_reply station heard.now }
{
    match *heard {
        Call::Service { from, kind, .. } => match kind {
            Kind::Test { reply } => reply && from.number() == station.number(),
            Kind::AskPosition | Kind::Position(_, _) => false,
        },
        _ => false,
    }
}

/// Whether a heard call is this station's position answer.
fn is_position_answer(station: Mmsi, heard: &Call) -> bool
    ensures { result ≡ replies.is_position_answer station heard.now }
{
    match *heard {
        Call::Service { from, kind, .. } => match kind {
            Kind::Position(_, _) => from.number() == station.number(),
            Kind::Test { .. } | Kind::AskPosition => false,
        },
        _ => false,
    }
}
