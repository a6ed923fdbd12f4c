//! The texts of calls.
ghost use Rattle.std.specs.Prelude.{◌≡◌, ◌+◌, ◌≤◌, ◌++◌};
ghost use Rattle.arrayvec.specs.ArrayVec.{array_vec_len};
ghost use Rattle.call_texts.specs.CallParts.{call_text};
ghost use Rattle.call_texts.specs.CallParts as parts;
ghost use Rattle.call_values.specs.declared.calls.Call.TheVariants.{Alert, Service};
ghost use Rattle.call_texts.specs.Texts.{reported_text};

use crate::extras::append_extra;
use crate::values::{
    append_address, append_area, append_casualty, append_distress, append_end, append_frequencies,
    append_from, append_message, append_position, append_request, append_sender, append_time,
};
use arrayvec::ArrayVec;
use call_grammar::end_of;
use call_values::{Call, Casualty, Category, Kind, Mmsi};
use dsc_symbols::ends::{ACKNOWLEDGE_BQ, ACKNOWLEDGE_RQ};
use line_grammar::{append, append_digits};
use slot_join::Extra;

/// The text of a call and of what follows it on air.
pub fn put_call(call: &Call, extra: &Extra) -> ArrayVec<u8, 256>
    ensures { result.items ≡ reported_text call.now extra.now }
{
    let mut out = ArrayVec::new();
    append_reported(&mut out, call, extra);
    out
}

/// Appends the text of a call and of what follows it on air, which takes at most 151 bytes.
pub fn append_reported<const N: usize>(out: &mut ArrayVec<u8, N>, call: &Call, extra: &Extra)
    requires { array_vec_len out.old + 151 ≤ N }
    ensures items { out.new.items ≡ out.old.items ++ reported_text call.now extra.now }
    ensures len { array_vec_len out.new ≤ array_vec_len out.old + 151 }
{
    append_call(out, call);
    append_extra(out, extra);
}

/// Appends a call's text, which takes at most 111 bytes.
#[tactic(auto, unfolding(crate::specs::CallParts::call_text))]
pub fn append_call<const N: usize>(out: &mut ArrayVec<u8, N>, call: &Call)
    requires { array_vec_len out.old + 111 ≤ N }
    ensures items { out.new.items ≡ out.old.items ++ call_text call.now }
    ensures len { array_vec_len out.new ≤ array_vec_len out.old + 111 }
{
    match call {
        Call::Alert(casualty) => append_alert(out, casualty),
        Call::Ack { from, casualty } => {
            append(out, b"ack");
            append_distress(out, from, casualty);
        }
        Call::Relay {
            to,
            from,
            casualty,
            ..
        } => {
            append(out, b"relay to=");
            append_address(out, to);
            append_distress(out, from, casualty);
            append_end(out, end_of(call));
        }
        Call::RelayAck { to, from, casualty } => {
            append(out, b"relayack to=");
            append_address(out, to);
            append_distress(out, from, casualty);
        }
        Call::AllShips {
            category,
            from,
            first,
            second,
            f1,
            f2,
        } => {
            append(out, b"all");
            append_request(out, category, from, first, second);
            append_frequencies(out, f1, f2);
        }
        Call::AreaCall {
            area,
            category,
            from,
            first,
            second,
            f1,
            f2,
        } => {
            append(out, b"area to=");
            append_area(out, area);
            append_request(out, category, from, first, second);
            append_frequencies(out, f1, f2);
        }
        Call::GroupCall {
            group,
            category,
            from,
            first,
            second,
            f1,
            f2,
        } => {
            append(out, b"group to=");
            append_digits(out, 9, u64::from(group.number()));
            append_request(out, category, from, first, second);
            append_frequencies(out, f1, f2);
        }
        Call::Individual {
            to,
            category,
            from,
            first,
            second,
            message,
            ..
        } => {
            append(out, b"one to=");
            append_digits(out, 9, u64::from(to.number()));
            append_request(out, category, from, first, second);
            append_message(out, message);
            append_end(out, end_of(call));
        }
        Call::Service {
            to,
            category,
            from,
            kind,
        } => append_service(out, to, category, from, kind),
    }
}

/// Appends the text of a distress alert; at most 65 bytes.
#[tactic(auto, unfolding(crate::specs::CallParts::call_text))]
fn append_alert<const N: usize>(out: &mut ArrayVec<u8, N>, casualty: &Casualty)
    requires { array_vec_len out.old + 65 ≤ N }
    ensures items { out.new.items ≡ out.old.items ++ call_text (Alert casualty.now) }
    ensures len { array_vec_len out.new ≤ array_vec_len out.old + 65 }
{
    append(out, b"alert");
    append_from(out, &casualty.mmsi);
    append_casualty(out, casualty);
}

/// The end of sequence of a test, or of the reply to one.
fn test_end(reply: bool) -> u8
    ensures { result ≡ parts.test_end reply }
{
    if reply {
        ACKNOWLEDGE_BQ
    } else {
        ACKNOWLEDGE_RQ
    }
}

/// Appends the text of a test, or of a call about a ship's position; at most 70 bytes.
#[tactic(auto, unfolding(crate::specs::CallParts::call_text))]
fn append_service<const N: usize>(
    out: &mut ArrayVec<u8, N>,
    to: &Mmsi,
    category: &Category,
    from: &Mmsi,
    kind: &Kind,
)
    requires { array_vec_len out.old + 70 ≤ N }
    ensures items { out.new.items ≡ out.old.items ++ call_text (Service to.now category.now from.now kind.now) }
    ensures len { array_vec_len out.new ≤ array_vec_len out.old + 70 }
{
    match kind {
        Kind::Test { reply } => {
            append(out, b"test to=");
            append_digits(out, 9, u64::from(to.number()));
            append_sender(out, category, from);
            append_end(out, test_end(*reply));
        }
        Kind::AskPosition => {
            append(out, b"askpos to=");
            append_digits(out, 9, u64::from(to.number()));
            append_sender(out, category, from);
        }
        Kind::Position(position, time) => {
            append(out, b"pos to=");
            append_digits(out, 9, u64::from(to.number()));
            append_sender(out, category, from);
            append(out, b" pos=");
            append_position(out, position);
            append(out, b" time=");
            append_time(out, time);
        }
    }
}
