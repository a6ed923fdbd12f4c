//! The lines of acts and of refused events.
ghost use Rattle.std.specs.Prelude.{◌≡◌, ◌+◌, ◌≤◌, ◌++◌};
ghost use Rattle.arrayvec.specs.ArrayVec.{array_vec_len};
ghost use Rattle.station_lines.specs.ActTexts.{act_text, told_act};
ghost use Rattle.station_lines.specs.RefusalTexts.{refusal_text, told_refusal};

use crate::moments::{append_labelled, append_moment};
use arrayvec::ArrayVec;
use call_texts::{append_call, append_ship_in_distress};
use line_grammar::{append, append_digits};
use traffic_rules::{Act, StationRefusal};

/// An act's line at a moment in milliseconds, without the line feed.
pub fn put_act(at: u32, act: &Act) -> ArrayVec<u8, 288>
    ensures { result.items ≡ act_text at act.now }
{
    let mut out = ArrayVec::new();
    append_act_text(&mut out, at, act);
    out
}

/// Appends an act's line at a moment in milliseconds, without the line feed, at most 158 bytes (this project's
/// profile): `0 send 5 alert from=..`, `7 shown`, `0 held 1`, `9 answered 1`, `600000 gaveup 1`, `0 distress
/// casualty=..`, `221000 ended` or `7000 closed 338040079`.
pub fn append_act_text<const N: usize>(out: &mut ArrayVec<u8, N>, at: u32, act: &Act)
    requires { array_vec_len out.old + 158 ≤ N }
    ensures { out.new.items ≡ out.old.items ++ act_text at act.now }
{
    append_moment(out, at);
    append_act(out, act);
}

/// Appends what is written of an act, which takes at most 137 bytes.
#[tactic(auto, unfolding(call_texts::specs::CallParts::call_text))]
fn append_act<const N: usize>(out: &mut ArrayVec<u8, N>, act: &Act)
    requires { array_vec_len out.old + 137 ≤ N }
    ensures { out.new.items ≡ out.old.items ++ told_act act.now }
{
    match act {
        Act::Send { call, times } => {
            append_labelled(out, b"send ", u64::from(*times));
            append(out, b" ");
            append_call(out, call);
        }
        Act::Shown => append(out, b"shown"),
        Act::Held(number) => append_labelled(out, b"held ", u64::from(*number)),
        Act::Answered(number) => append_labelled(out, b"answered ", u64::from(*number)),
        Act::GaveUp(number) => append_labelled(out, b"gaveup ", u64::from(*number)),
        Act::Distress(casualty) => {
            append(out, b"distress");
            append_ship_in_distress(out, casualty);
        }
        Act::AlertEnded => append(out, b"ended"),
        Act::CasualtyClosed(in_distress) => {
            append(out, b"closed ");
            append_digits(out, 9, u64::from(in_distress.number()));
        }
    }
}

/// A refusal's line at a moment in milliseconds, without the line feed.
pub fn put_refused(at: u32, refusal: &StationRefusal) -> ArrayVec<u8, 96>
    ensures { result.items ≡ refusal_text at refusal.now }
{
    let mut out = ArrayVec::new();
    append_refusal_text(&mut out, at, refusal);
    out
}

/// Appends a refusal's line at a moment in milliseconds, without the line feed, at most 79 bytes (this project's
/// profile): `0 refused ` and one of `alertactive`, `noalert`, `nosuchcall 3`, `full`, `needsdelay`, `notsendable`,
/// `nocasualty 338158137` and `timeback 5 4`.
pub fn append_refusal_text<const N: usize>(
    out: &mut ArrayVec<u8, N>,
    at: u32,
    refusal: &StationRefusal,
)
    requires { array_vec_len out.old + 79 ≤ N }
    ensures { out.new.items ≡ out.old.items ++ refusal_text at refusal.now }
{
    append_moment(out, at);
    append(out, b"refused ");
    append_refusal(out, refusal);
}

/// Appends why an event is refused, which takes at most 50 bytes.
fn append_refusal<const N: usize>(out: &mut ArrayVec<u8, N>, refusal: &StationRefusal)
    requires { array_vec_len out.old + 50 ≤ N }
    ensures { out.new.items ≡ out.old.items ++ told_refusal refusal.now }
{
    match refusal {
        StationRefusal::AlertActive => append(out, b"alertactive"),
        StationRefusal::NoAlert => append(out, b"noalert"),
        StationRefusal::NoSuchCall(number) => {
            append_labelled(out, b"nosuchcall ", u64::from(*number));
        }
        StationRefusal::Full => append(out, b"full"),
        StationRefusal::NeedsDelay => append(out, b"needsdelay"),
        StationRefusal::NotSendable => append(out, b"notsendable"),
        StationRefusal::NoCasualty(ship) => {
            append(out, b"nocasualty ");
            append_digits(out, 9, u64::from(ship.number()));
        }
        StationRefusal::TimeBack { last, given } => {
            append_labelled(out, b"timeback ", *last);
            append_labelled(out, b" ", *given);
        }
    }
}
