//! The fields of the DSC sentence of a call.
ghost use Rattle.std.specs.Prelude.{◌≡◌, ◌+◌, ◌≤◌, ◌++◌, true, IfSome};
ghost use Rattle.arrayvec.specs.ArrayVec.{array_vec_len};
ghost use Rattle.sentence_frame.specs.Shapes.{is_among};
ghost use Rattle.sentence_frame.specs.Texts.{AreDigits, IsDigits, IsUpToDigits};
ghost use Rattle.call_grammar.specs.Spelling as sequence;
ghost use Rattle.call_values.specs.Parts.{IsMessage, IsKind, IsTo};
ghost use Rattle.dsc_symbols.specs.declared.last_digits.TheConstants as last_digits;
ghost use Rattle.dsc_sentences.specs.Calls as rows;

use crate::decimals::{append_decimals, ten_digits};
use crate::dsc::{DscFields, DscSentence};
use arrayvec::ArrayVec;
use call_grammar::{area_digits, category_symbol, own_end, position_digits};
use call_values::bounds::{HF_CHANNELS, TENS, VHF_CHANNELS};
use call_values::{Body, Call, Field, FieldKind, HourMinute, Kind, Message, Mmsi, Position, To};
use dsc_symbols::messages::NO_INFORMATION;
use dsc_symbols::{categories, formats, telecommands};
use line_grammar::append;

/// The DSC sentence of a call; an expansion follows it where the argument says so.
#[tactic(auto, unfolding(crate::specs::Calls::of_call))]
pub fn of_call(c: &Call, expanded: bool) -> DscSentence
    ensures { result ≡ rows.of_call c.now expanded }
{
    let body = c.body();
    DscSentence {
        fields: DscFields {
            format: format_of(c),
            address: address_of(&c.address(), &body.sender()),
            category: Some(category_of(&body)),
            first: Some(first_of(&body)),
            second: Some(second_of(&body)),
            place: place_of(&body),
            time: time_of(&body),
            distress: distress_of(&body),
            nature: nature_of(&body),
            end: own_end(c),
            expanded,
        },
    }
}

/// The last two digits of a symbol.
fn last_two(symbol: u8) -> u8
    ensures value { result ≡ rows.last_two symbol }
    ensures range { result ≤ 99 }
{
    symbol % 100
}

/// The last two digits of a call's format specifier.
pub fn format_of(call: &Call) -> u8
    ensures value { result ≡ rows.last_two (sequence.format_of call.now) }
    ensures range { is_among last_digits.FORMATS result ≡ true }
{
    last_two(call_grammar::format_of(call))
}

/// Nine digits and a 0.
pub fn identity_digits(mmsi: &Mmsi) -> [u8; 10]
    ensures value { result ≡ rows.identity_digits mmsi.now }
    ensures digits { IsDigits 10 result }
{
    ten_digits(10 * u64::from(mmsi.number()))
}

/// The digits of the area that a call is for, else of its sender.
fn address_of(to: &To, sender: &Mmsi) -> [u8; 10]
    ensures value { result ≡ rows.address_digits to.now sender.now }
    ensures digits { IsDigits 10 result }
{
    match to {
        To::Area(area) => ten_digits(area_digits(area)),
        To::All | To::Group(_) | To::One(_) => identity_digits(sender),
    }
}

/// The last two digits of the category.
pub fn category_of(body: &Body) -> u8
    ensures value { result ≡ rows.last_two (rows.category_of body.now) }
    ensures range { is_among last_digits.CATEGORIES result ≡ true }
{
    match body {
        Body::Alert(_) | Body::Distress { .. } => last_two(categories::DISTRESS),
        Body::Request { category, .. } | Body::Service { category, .. } => last_two(category_symbol(
            category,
        )),
    }
}

/// The last two digits of an alert's nature of distress, else of the first telecommand.
pub fn first_of(body: &Body) -> u8
    ensures value { result ≡ rows.last_two (rows.first_of body.now) }
    ensures range { result ≤ 99 }
{
    match body {
        Body::Alert(casualty) => last_two(casualty.nature.number()),
        Body::Distress {
            acknowledges: true,
            ..
        } => last_two(telecommands::DISTRESS_ACKNOWLEDGEMENT),
        Body::Distress { .. } => last_two(telecommands::DISTRESS_RELAY),
        Body::Request { first, .. } => last_two(first.number()),
        Body::Service {
            kind: Kind::Test { .. },
            ..
        } => last_two(telecommands::TEST),
        Body::Service { .. } => last_two(telecommands::SHIP_POSITION),
    }
}

/// The last two digits of what is to follow a distress call, else of the second telecommand.
pub fn second_of(body: &Body) -> u8
    ensures value { result ≡ rows.last_two (rows.second_of body.now) }
    ensures range { result ≤ 99 }
{
    match body {
        Body::Alert(casualty) | Body::Distress { casualty, .. } => last_two(casualty.comm.number()),
        Body::Request { second, .. } => last_two(second.number()),
        Body::Service { .. } => last_two(NO_INFORMATION),
    }
}

/// The digits of a position, or of two frequencies or channels.
fn place_of(body: &Body) -> ArrayVec<u8, 16>
    ensures items { result.items ≡ rows.place_of body.now }
    ensures digits { IsUpToDigits 16 result.items }
{
    let mut place = ArrayVec::new();
    append_place(&mut place, body);
    place
}

/// Appends the digits of a position, or of two frequencies or channels.
fn append_place(out: &mut ArrayVec<u8, 16>, body: &Body)
    requires { array_vec_len out.old ≡ 0 }
    ensures { out.new.items ≡ rows.place_of body.now }
{
    match body {
        Body::Alert(casualty) | Body::Distress { casualty, .. } => append_position(
            out,
            &casualty.position,
        ),
        Body::Request { message, .. } => append_message(out, message),
        Body::Service {
            kind: Kind::Position(position, _),
            ..
        } => append_position(out, position),
        Body::Service { .. } => {}
    }
}

/// Appends the digits of two frequencies or channels, or of a position.
fn append_message(out: &mut ArrayVec<u8, 16>, message: &Message)
    requires { array_vec_len out.old ≡ 0 }
    ensures { out.new.items ≡ out.old.items ++ rows.message_place message.now }
{
    match message {
        Message::Fields(f1, f2) => {
            append_frequency(out, f1);
            append_frequency(out, f2);
        }
        Message::At(position) => append_position(out, position),
    }
}

/// Appends the digits of a frequency or channel, at most eight.
fn append_frequency(out: &mut ArrayVec<u8, 16>, field: &Field)
    requires { array_vec_len out.old + 8 ≤ 16 }
    ensures items { out.new.items ≡ out.old.items ++ rows.frequency_place field.now }
    ensures len { array_vec_len out.new ≤ array_vec_len out.old + 8 }
{
    match field.kind() {
        FieldKind::Absent => {}
        FieldKind::Hundreds(number) => append_decimals(out, 6, u64::from(number)),
        FieldKind::Hf(number) => append_decimals(out, 6, u64::from(HF_CHANNELS + number)),
        FieldKind::Vhf(number) => append_decimals(
            out,
            6,
            u64::from(VHF_CHANNELS + u32::from(number)),
        ),
        FieldKind::Tens(number) => append_decimals(out, 8, u64::from(TENS + number)),
    }
}

/// Appends a position's ten digits, nines where it isn't known.
fn append_position(out: &mut ArrayVec<u8, 16>, position: &Position)
    requires { array_vec_len out.old ≡ 0 }
    ensures { out.new.items ≡ out.old.items ++ rows.position_place position.now }
{
    let number = match position.known() {
        Some(fix) => position_digits(&fix),
        None => 9_999_999_999,
    };
    append(out, &ten_digits(number));
}

/// Hour and minute in four digits, eights where they aren't known.
fn time_number(time: &HourMinute) -> u16
    ensures value { result ≡ rows.time_number time.now }
    ensures range { result ≤ 9999 }
{
    match time.known() {
        Some((hour, minute)) => 100 * u16::from(hour) + u16::from(minute),
        None => 8_888,
    }
}

/// The time of a distress, or of a given position.
pub fn time_of(body: &Body) -> Option<u16>
    ensures value { result ≡ rows.time_of body.now }
    ensures range { IfSome result (λ n. n ≤ 9999) }
{
    match body {
        Body::Alert(casualty) | Body::Distress { casualty, .. } => Some(time_number(
            &casualty.time,
        )),
        Body::Service {
            kind: Kind::Position(_, time),
            ..
        } => Some(time_number(time)),
        Body::Request { .. } | Body::Service { .. } => None,
    }
}

/// The digits of another ship in distress.
fn distress_of(body: &Body) -> Option<[u8; 10]>
    ensures value { result ≡ rows.distress_of body.now }
    ensures digits { IfSome result (IsDigits 10) }
{
    match body {
        Body::Distress { casualty, .. } => Some(identity_digits(&casualty.mmsi)),
        _ => None,
    }
}

/// The last two digits of its nature of distress.
pub fn nature_of(body: &Body) -> Option<u8>
    ensures value { result ≡ rows.nature_of body.now }
    ensures range { IfSome result (λ n. n ≤ 99) }
{
    match body {
        Body::Distress { casualty, .. } => Some(last_two(casualty.nature.number())),
        _ => None,
    }
}
