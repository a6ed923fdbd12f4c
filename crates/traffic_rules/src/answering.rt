//! What is due where an operator answers or declines a held call.
ghost use Rattle.std.specs.Prelude.{◌≡◌, [], OnOk, OnErr};
ghost use Rattle.dsc_symbols.specs.declared.notices.TheConstants as TheNotices;
ghost use Rattle.dsc_symbols.specs.declared.telecommands.TheConstants as TheTelecommands;
ghost use Rattle.traffic_rules.specs.Rules.{refusal_or};
ghost use Rattle.traffic_rules.specs.Answering as answering;
ghost use Rattle.traffic_rules.specs.After.{after_answering};
ghost use Rattle.traffic_rules.specs.Giving.{answer_with};

use crate::acts::{Act, Acts};
use crate::giving::give;
use crate::held::{HeldCalls, Side};
use crate::refusals::StationRefusal;
use call_values::{Call, End, First, Mmsi, Second, To};
use dsc_symbols::{notices, telecommands};

/// Answers the call that was got under a number, as the operator accepts or declines it, and frees the number (this
/// project's profile). The acts go into a list that is empty, and stays so where the answer is refused. Refused where
/// no call that was got is held under the number (`NoSuchCall`).
pub fn answer(
    held: &mut HeldCalls,
    own: Mmsi,
    number: u8,
    accepts: bool,
    acts: &mut Acts,
) -> Result<(), StationRefusal>
    requires { acts.old.items ≡ [] }
    ensures answer { answer_with result acts.new.items
        ≡ refusal_or (answering.answer_refusal held.old number) (answering.answer_due own held.old number accepts) }
    ensures none { OnErr result (acts.new.items ≡ []) }
    ensures held { OnOk result (held.new ≡ after_answering held.old number) }
    ensures unchanged { OnErr result (held.new ≡ held.old) }
{
    let Some(got) = held.find(number) else {
        return Err(StationRefusal::NoSuchCall(number));
    };
    match got.side {
        Side::Sent => Err(StationRefusal::NoSuchCall(number)),
        Side::Got => {
            let _ = held.release(number);
            reply(own, accepts, &got.call, acts);
            Ok(())
        }
    }
}

/// Gives the answer to a call, where there is one.
fn reply(own: Mmsi, accepts: bool, call: &Call, acts: &mut Acts)
    requires { acts.old.items ≡ [] }
    ensures { acts.new.items ≡ answering.reply_to own accepts call.now }
{
    match *call {
        Call::Individual {
            category,
            from,
            first,
            second,
            message,
            ..
        } => {
            let (first, second) = if accepts { (first, second) } else { unable() };
            let call = Call::Individual {
                to: from,
                category,
                from: own,
                first,
                second,
                message,
                end: End::Reply,
            };
            give(acts, Act::Send { call, times: 1 });
        }
        Call::Relay { from, casualty, .. } if accepts => {
            let to = To::One(from);
            let call = Call::RelayAck {
                to,
                from: own,
                casualty,
            };
            give(acts, Act::Send { call, times: 1 });
        }
        _ => {}
    }
}

/// The telecommands of a call that is declined: unable to comply, no reason given.
fn unable() -> (First, Second)
    ensures { result ≡ (TheTelecommands.UNABLE_TO_COMPLY, TheNotices.NO_REASON) }
{
    (
        First::new(telecommands::UNABLE_TO_COMPLY).unwrap(),
        Second::new(notices::NO_REASON).unwrap(),
    )
}
