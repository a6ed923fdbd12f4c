//! The list of a call, as it is sent.
ghost use Rattle.std.specs.Prelude.{◌≡◌, ◌+◌, ◌<◌, ◌≤◌, ◌++◌, ◌∷◌, [], length};
ghost use Rattle.call_values.specs.Positions.{IsFix};
ghost use Rattle.call_values.specs.Areas.{IsArea};
ghost use Rattle.call_grammar.specs.Spelling as sequence;

use arrayvec::ArrayVec;
use call_values::bounds::{HF_CHANNELS, TENS, VHF_CHANNELS};
use call_values::{
    Area, Body, Call, Casualty, Category, End, Field, FieldKind, First, Fix, HourMinute, Kind,
    Message, Mmsi, Position, Second, To,
};
use dsc_symbols::messages::{NO_INFORMATION, POSITION_FOLLOWS, UNKNOWN_POSITION, UNKNOWN_TIME};
use dsc_symbols::{categories, formats, telecommands};
use symbol_reader::{check, eight_digits, six_digits, ten_digits};

/// A call's list: the format specifier twice, the fields, the end of sequence, the error check character, and the
/// end of sequence twice more (ITU-R M.493, composition of call sequences).
pub fn spell(call: &Call) -> ArrayVec<u8, 64>
    ensures { result.items ≡ sequence.spell call.now }
{
    let mut list = ArrayVec::new();
    spell_into(&mut list, call);
    list
}

/// The same, written into an empty list: a caller that spells many calls has one list for all.
pub fn spell_into(list: &mut ArrayVec<u8, 64>, call: &Call)
    requires { list.old.items ≡ [] }
    ensures { list.new.items ≡ sequence.spell call.now }
{
    let end = end_of(call);
    append_up_to_end(list, call);
    let check = check(&list.as_slice()[1..]);
    append(list, &[check, end, end]);
}

/// Appends a call's list up to its first end of sequence to an empty list.
fn append_up_to_end(list: &mut ArrayVec<u8, 64>, call: &Call)
    requires { list.old.items ≡ [] }
    ensures list { list.new.items ≡ sequence.up_to_end call.now }
    ensures short { length list.new.items ≤ 29 }
{
    let format = format_of(call);
    append(list, &[format, format]);
    append_fields(list, call);
    append(list, &[end_of(call)]);
}

/// The call's format specifier.
pub fn format_of(call: &Call) -> u8
    ensures { result ≡ sequence.format_of call.now }
{
    match call {
        Call::Alert(_) => formats::DISTRESS,
        _ => format_to(&call.address()),
    }
}

/// The format specifier of a call by its address (ITU-R M.493, format specifier).
fn format_to(to: &To) -> u8
    ensures { result ≡ sequence.format_to to.now }
{
    match to {
        To::All => formats::ALL_SHIPS,
        To::Area(_) => formats::AREA,
        To::Group(_) => formats::GROUP,
        To::One(_) => formats::INDIVIDUAL,
    }
}

/// The call's end of sequence: acknowledgement wanted, acknowledgement given, or neither (ITU-R M.493, end of
/// sequence).
pub fn own_end(call: &Call) -> End
    ensures { sequence.end_symbol result ≡ sequence.end_of call.now }
{
    match call {
        Call::Relay { ask: true, .. } => End::Ask,
        Call::RelayAck { .. } => End::Reply,
        Call::Individual { end, .. } => *end,
        Call::Service { kind, .. } => kind_end(kind),
        _ => End::Plain,
    }
}

/// The symbol of the call's end of sequence.
pub fn end_of(call: &Call) -> u8
    ensures { result ≡ sequence.end_of call.now }
{
    own_end(call).symbol()
}

/// The symbol of an end of sequence (ITU-R M.493, end of sequence).
pub fn end_symbol(end: &End) -> u8
    ensures { result ≡ sequence.end_symbol end.now }
{
    end.symbol()
}

/// The end of sequence of a test, of its reply, and of a position that is asked for or given.
fn kind_end(kind: &Kind) -> End
    ensures { sequence.end_symbol result ≡ sequence.kind_end kind.now }
{
    match kind {
        Kind::Test { reply: false } | Kind::AskPosition => End::Ask,
        Kind::Test { reply: true } | Kind::Position(..) => End::Reply,
    }
}

/// Appends symbols for which there is room.
pub fn append(list: &mut ArrayVec<u8, 64>, symbols: &[u8])
    requires { length list.old.items + length symbols.now ≤ 64 }
    ensures { list.new.items ≡ list.old.items ++ symbols.now }
{
    list.try_extend_from_slice(symbols).unwrap();
}

/// Appends the fields of a call: its address, and what it says. An alert has no address, and is taken as it is, since no
/// call is sent as often.
fn append_fields(list: &mut ArrayVec<u8, 64>, call: &Call)
    requires { length list.old.items ≤ 2 }
    ensures { list.new.items ≡ list.old.items ++ sequence.fields_of call.now }
{
    match call {
        Call::Alert(casualty) => append_casualty(list, casualty),
        _ => {
            append_address(list, &call.address());
            append_body(list, &call.body());
        }
    }
}

/// Appends the characters of what a call says, up to its end of sequence (ITU-R M.493, composition of the calls).
fn append_body(list: &mut ArrayVec<u8, 64>, body: &Body)
    requires { length list.old.items ≤ 7 }
    ensures { list.new.items ≡ list.old.items ++ sequence.body_symbols body.now }
{
    match body {
        Body::Alert(casualty) => append_casualty(list, casualty),
        Body::Distress {
            from,
            acknowledges,
            casualty,
        } => append_distress(list, from, distress_telecommand(*acknowledges), casualty),
        Body::Request {
            category,
            from,
            first,
            second,
            message,
        } => append_request(list, category, from, first, second, message),
        Body::Service {
            category,
            from,
            kind,
        } => append_service(list, category, from, kind),
    }
}

/// The telecommand of a distress acknowledgement, or of a distress relay.
fn distress_telecommand(acknowledges: bool) -> u8
    ensures { result ≡ sequence.distress_telecommand acknowledges }
{
    if acknowledges {
        telecommands::DISTRESS_ACKNOWLEDGEMENT
    } else {
        telecommands::DISTRESS_RELAY
    }
}

/// Appends the category, the sender, and the kind of a test or of a call about a ship's position.
fn append_service(list: &mut ArrayVec<u8, 64>, category: &Category, from: &Mmsi, kind: &Kind)
    requires { length list.old.items ≤ 7 }
    ensures { list.new.items ≡ list.old.items
        ++ (sequence.category_symbol category.now
        ∷ (sequence.identity_symbols from.now ++ sequence.kind_symbols kind.now)) }
{
    append(list, &[category_symbol(category)]);
    append(list, &identity_symbols(from));
    append_kind(list, kind);
}

/// Appends the telecommands and the message of a test or of a call about a ship's position.
fn append_kind(list: &mut ArrayVec<u8, 64>, kind: &Kind)
    requires { length list.old.items ≤ 20 }
    ensures { list.new.items ≡ list.old.items ++ sequence.kind_symbols kind.now }
{
    match kind {
        Kind::Test { .. } => {
            append(list, &[telecommands::TEST]);
            append(list, &[NO_INFORMATION; 7]);
        }
        Kind::AskPosition => {
            append(list, &[telecommands::SHIP_POSITION]);
            append(list, &[NO_INFORMATION; 7]);
        }
        Kind::Position(position, time) => {
            append(
                list,
                &[
                    telecommands::SHIP_POSITION,
                    NO_INFORMATION,
                    POSITION_FOLLOWS,
                ],
            );
            append(list, &position_symbols(position));
            append(list, &time_symbols(time));
        }
    }
}

/// Appends the characters of an address: none for all ships, else five.
fn append_address(list: &mut ArrayVec<u8, 64>, to: &To)
    requires { length list.old.items ≤ 2 }
    ensures list { list.new.items ≡ list.old.items ++ sequence.address_symbols to.now }
    ensures short { length list.new.items ≤ 7 }
{
    match to {
        To::All => {}
        To::Area(area) => append(list, &area_symbols(area)),
        To::Group(mmsi) | To::One(mmsi) => append(list, &identity_symbols(mmsi)),
    }
}

/// Appends the category distress, the sender, the telecommand and the casualty.
fn append_distress(list: &mut ArrayVec<u8, 64>, from: &Mmsi, telecommand: u8, casualty: &Casualty)
    requires { length list.old.items ≤ 7 }
    ensures { list.new.items ≡ list.old.items ++ sequence.distress_symbols from.now telecommand casualty.now }
{
    append(list, &[categories::DISTRESS]);
    append(list, &identity_symbols(from));
    append(list, &[telecommand]);
    append_casualty(list, casualty);
}

/// Appends the category, the sender, the two telecommands and the message.
fn append_request(
    list: &mut ArrayVec<u8, 64>,
    category: &Category,
    from: &Mmsi,
    first: &First,
    second: &Second,
    message: &Message,
)
    requires { length list.old.items ≤ 7 }
    ensures { list.new.items ≡ list.old.items
        ++ sequence.request_symbols category.now from.now first.now second.now message.now }
{
    append(list, &[category_symbol(category)]);
    append(list, &identity_symbols(from));
    append(list, &[first.number(), second.number()]);
    append_message(list, message);
}

/// Appends two frequency or channel fields, or a position.
fn append_message(list: &mut ArrayVec<u8, 64>, message: &Message)
    requires { length list.old.items ≤ 40 }
    ensures { list.new.items ≡ list.old.items ++ sequence.message_symbols message.now }
{
    match message {
        Message::Fields(f1, f2) => {
            append_field(list, f1);
            append_field(list, f2);
        }
        Message::At(position) => {
            append(list, &[POSITION_FOLLOWS]);
            append(list, &position_symbols(position));
        }
    }
}

/// Appends a field's three or four characters.
fn append_field(list: &mut ArrayVec<u8, 64>, field: &Field)
    requires { length list.old.items ≤ 50 }
    ensures list { list.new.items ≡ list.old.items ++ sequence.field_symbols field.now }
    ensures short { length list.new.items ≤ length list.old.items + 4 }
{
    match field.kind() {
        FieldKind::Absent => append(list, &[NO_INFORMATION; 3]),
        FieldKind::Hundreds(number) => append(list, &six_digits(number)),
        FieldKind::Hf(number) => append(list, &six_digits(HF_CHANNELS + number)),
        FieldKind::Vhf(number) => append(list, &six_digits(VHF_CHANNELS + u32::from(number))),
        FieldKind::Tens(number) => append(list, &eight_digits(TENS + number)),
    }
}

/// The symbol of a category (ITU-R M.493, category).
pub fn category_symbol(category: &Category) -> u8
    ensures { result ≡ sequence.category_symbol category.now }
{
    match category {
        Category::Routine => categories::ROUTINE,
        Category::Safety => categories::SAFETY,
        Category::Urgency => categories::URGENCY,
    }
}

/// Appends a casualty's identity, nature of distress, position, time and subsequent communications.
fn append_casualty(list: &mut ArrayVec<u8, 64>, casualty: &Casualty)
    requires { length list.old.items ≤ 50 }
    ensures { list.new.items ≡ list.old.items ++ sequence.casualty_symbols casualty.now }
{
    append(list, &identity_symbols(&casualty.mmsi));
    append(list, &[casualty.nature.number()]);
    append(list, &position_symbols(&casualty.position));
    append(list, &time_symbols(&casualty.time));
    append(list, &[casualty.comm.number()]);
}

/// The five characters of an identity: its nine digits and a 0 (ITU-R M.493, address).
fn identity_symbols(mmsi: &Mmsi) -> [u8; 5]
    ensures { result ≡ sequence.identity_symbols mmsi.now }
{
    ten_digits(u64::from(mmsi.number()) * 10)
}

/// The five characters of a position: ten digits, or 99 each where it isn't known (ITU-R M.493, distress coordinates).
fn position_symbols(position: &Position) -> [u8; 5]
    ensures { result ≡ sequence.position_symbols position.now }
{
    match position.known() {
        None => [UNKNOWN_POSITION; 5],
        Some(fix) => ten_digits(position_digits(&fix)),
    }
}

/// The two characters of a time: hour and minute, or 88 each where it isn't known (ITU-R M.493, time of a distress
/// alert).
fn time_symbols(time: &HourMinute) -> [u8; 2]
    ensures { result ≡ sequence.time_symbols time.now }
{
    match time.known() {
        None => [UNKNOWN_TIME; 2],
        Some((hour, minute)) => [hour, minute],
    }
}

/// The five characters of an area: its ten digits (ITU-R M.493, geographical coordinates of an area call).
fn area_symbols(area: &Area) -> [u8; 5]
    ensures { result ≡ sequence.area_symbols area.now }
{
    ten_digits(area_digits(area))
}

/// Quadrant, latitude, longitude and the two sides in ten digits.
#[tactic(auto, unfolding(crate::specs::Spelling::area_digits))]
pub fn area_digits(area: &Area) -> u64
    ensures value { result ≡ sequence.area_digits area.now }
    ensures digits { result < 10000000000 }
{
    1_000_000_000 * u64::from(area.quadrant())
        + 10_000_000 * u64::from(area.latitude())
        + 10_000 * u64::from(area.longitude())
        + 100 * u64::from(area.south())
        + u64::from(area.east())
}

/// Quadrant, latitude and longitude in ten digits.
#[tactic(auto, unfolding(crate::specs::Spelling::position_digits))]
pub fn position_digits(fix: &Fix) -> u64
    requires { IsFix fix.now }
    ensures value { result ≡ sequence.position_digits fix.now }
    ensures digits { result < 10000000000 }
{
    1_000_000_000 * u64::from(fix.quadrant)
        + 10_000_000 * u64::from(fix.lat_deg)
        + 100_000 * u64::from(fix.lat_min)
        + 100 * u64::from(fix.lon_deg)
        + u64::from(fix.lon_min)
}
