//! The texts of the values that call texts have.
ghost use Rattle.std.specs.Prelude.{◌≡◌, ◌+◌, ◌≤◌, ◌++◌, [], Some};
ghost use Rattle.arrayvec.specs.ArrayVec.{array_vec_len};
ghost use Rattle.line_grammar.specs.Shapes.{digits};
ghost use Rattle.line_grammar.specs.Grammar.{finish, none, part, written};
ghost use Rattle.call_texts.specs.CallGrammar as grammar;
ghost use Rattle.call_texts.specs.CallParts.{position_text, time_text, area_text, frequency_text, address_text, casualty_parts, ship_in_distress_parts, distress_parts, sender_parts, frequencies_parts, message_parts, request_parts, end_parts};

use arrayvec::ArrayVec;
use call_grammar::category_symbol;
use call_values::bounds::{HF_CHANNELS, TENS, VHF_CHANNELS};
use call_values::{
    Area, Casualty, Category, Field, FieldKind, First, Fix, HourMinute, Message, Mmsi, Position,
    Second, To,
};
use line_grammar::{append, append_digits};

/// Appends a position's ten digits, nines where it isn't known.
pub fn append_position<const N: usize>(out: &mut ArrayVec<u8, N>, position: &Position)
    requires { array_vec_len out.old + 10 ≤ N }
    ensures items { out.new.items ≡ out.old.items ++ position_text position.now }
    ensures len { array_vec_len out.new ≡ array_vec_len out.old + 10 }
{
    match position.known() {
        Some(fix) => append_fix(out, &fix),
        None => append(out, b"9999999999"),
    }
}

/// Appends the ten digits of a known position.
fn append_fix<const N: usize>(out: &mut ArrayVec<u8, N>, fix: &Fix)
    requires { array_vec_len out.old + 10 ≤ N }
    ensures items { out.new.items ≡ out.old.items ++ position_text (Some fix.now) }
    ensures len { array_vec_len out.new ≡ array_vec_len out.old + 10 }
{
    append_digits(out, 1, u64::from(fix.quadrant));
    append_digits(out, 2, u64::from(fix.lat_deg));
    append_digits(out, 2, u64::from(fix.lat_min));
    append_digits(out, 3, u64::from(fix.lon_deg));
    append_digits(out, 2, u64::from(fix.lon_min));
}

/// Appends the four digits of hour and minute, eights where they aren't known.
pub fn append_time<const N: usize>(out: &mut ArrayVec<u8, N>, time: &HourMinute)
    requires { array_vec_len out.old + 4 ≤ N }
    ensures items { out.new.items ≡ out.old.items ++ time_text time.now }
    ensures len { array_vec_len out.new ≡ array_vec_len out.old + 4 }
{
    match time.known() {
        Some((hour, minute)) => {
            append_digits(out, 2, u64::from(hour));
            append_digits(out, 2, u64::from(minute));
        }
        None => append(out, b"8888"),
    }
}

/// Appends an area's ten digits.
pub fn append_area<const N: usize>(out: &mut ArrayVec<u8, N>, area: &Area)
    requires { array_vec_len out.old + 10 ≤ N }
    ensures items { out.new.items ≡ out.old.items ++ area_text area.now }
    ensures len { array_vec_len out.new ≡ array_vec_len out.old + 10 }
{
    append_digits(out, 1, u64::from(area.quadrant()));
    append_digits(out, 2, u64::from(area.latitude()));
    append_digits(out, 3, u64::from(area.longitude()));
    append_digits(out, 2, u64::from(area.south()));
    append_digits(out, 2, u64::from(area.east()));
}

/// Appends the digits of a frequency or channel field as on air, or `none`; at most 8 bytes.
fn append_field<const N: usize>(out: &mut ArrayVec<u8, N>, field: &Field)
    requires { array_vec_len out.old + 8 ≤ N }
    ensures items { out.new.items ≡ out.old.items ++ frequency_text field.now }
    ensures len { array_vec_len out.new ≤ array_vec_len out.old + 8 }
{
    match field.kind() {
        FieldKind::Absent => append(out, b"none"),
        FieldKind::Hundreds(number) => append_digits(out, 6, u64::from(number)),
        FieldKind::Hf(number) => append_digits(out, 6, u64::from(HF_CHANNELS + number)),
        FieldKind::Vhf(number) => append_digits(
            out,
            6,
            u64::from(VHF_CHANNELS + u32::from(number)),
        ),
        FieldKind::Tens(number) => append_digits(out, 8, u64::from(TENS + number)),
    }
}

/// Appends who a relay is addressed to.
pub fn append_address<const N: usize>(out: &mut ArrayVec<u8, N>, to: &To)
    requires { array_vec_len out.old + 15 ≤ N }
    ensures items { out.new.items ≡ out.old.items ++ address_text to.now }
    ensures len { array_vec_len out.new ≤ array_vec_len out.old + 15 }
{
    match to {
        To::All => append(out, b"all"),
        To::Area(area) => {
            append(out, b"area:");
            append_area(out, area);
        }
        To::Group(mmsi) => {
            append(out, b"group:");
            append_digits(out, 9, u64::from(mmsi.number()));
        }
        To::One(mmsi) => {
            append(out, b"one:");
            append_digits(out, 9, u64::from(mmsi.number()));
        }
    }
}

/// Appends the fields of a casualty after its identity: nature of distress, position, time and communication.
pub fn append_casualty<const N: usize>(out: &mut ArrayVec<u8, N>, casualty: &Casualty)
    requires { array_vec_len out.old + 45 ≤ N }
    ensures items { out.new.items ≡ out.old.items
        ++ written (grammar.casualty finish) (casualty_parts casualty.now none) }
    ensures len { array_vec_len out.new ≡ array_vec_len out.old + 45 }
{
    append(out, b" nature=");
    append_digits(out, 3, u64::from(casualty.nature.number()));
    append(out, b" pos=");
    append_position(out, &casualty.position);
    append(out, b" time=");
    append_time(out, &casualty.time);
    append(out, b" then=");
    append_digits(out, 3, u64::from(casualty.comm.number()));
}

/// Appends a sender.
pub fn append_from<const N: usize>(out: &mut ArrayVec<u8, N>, from: &Mmsi)
    requires { array_vec_len out.old + 15 ≤ N }
    ensures items { out.new.items ≡ out.old.items ++ written (grammar.from finish) (part (digits 9 from.now) none) }
    ensures len { array_vec_len out.new ≡ array_vec_len out.old + 15 }
{
    append(out, b" from=");
    append_digits(out, 9, u64::from(from.number()));
}

/// Appends a ship in distress, in 64 bytes: ` casualty=`, its identity, nature of distress, position, time and
/// communication.
pub fn append_ship_in_distress<const N: usize>(out: &mut ArrayVec<u8, N>, casualty: &Casualty)
    requires { array_vec_len out.old + 64 ≤ N }
    ensures items { out.new.items ≡ out.old.items
        ++ written (grammar.ship_in_distress finish) (ship_in_distress_parts casualty.now none) }
    ensures len { array_vec_len out.new ≡ array_vec_len out.old + 64 }
{
    append(out, b" casualty=");
    append_digits(out, 9, u64::from(casualty.mmsi.number()));
    append_casualty(out, casualty);
}

/// Appends a sender and a casualty that is another ship.
pub fn append_distress<const N: usize>(out: &mut ArrayVec<u8, N>, from: &Mmsi, casualty: &Casualty)
    requires { array_vec_len out.old + 79 ≤ N }
    ensures items { out.new.items ≡ out.old.items
        ++ written (grammar.distress finish) (distress_parts from.now casualty.now none) }
    ensures len { array_vec_len out.new ≡ array_vec_len out.old + 79 }
{
    append_from(out, from);
    append_ship_in_distress(out, casualty);
}

/// Appends a category and a sender.
pub fn append_sender<const N: usize>(out: &mut ArrayVec<u8, N>, category: &Category, from: &Mmsi)
    requires { array_vec_len out.old + 23 ≤ N }
    ensures items { out.new.items ≡ out.old.items
        ++ written (grammar.sender finish) (sender_parts category.now from.now none) }
    ensures len { array_vec_len out.new ≡ array_vec_len out.old + 23 }
{
    append(out, b" cat=");
    append_digits(out, 3, u64::from(category_symbol(category)));
    append_from(out, from);
}

/// Appends two frequencies or channels.
pub fn append_frequencies<const N: usize>(out: &mut ArrayVec<u8, N>, f1: &Field, f2: &Field)
    requires { array_vec_len out.old + 24 ≤ N }
    ensures items { out.new.items ≡ out.old.items
        ++ written (grammar.frequencies finish) (frequencies_parts f1.now f2.now none) }
    ensures len { array_vec_len out.new ≤ array_vec_len out.old + 24 }
{
    append(out, b" f1=");
    append_field(out, f1);
    append(out, b" f2=");
    append_field(out, f2);
}

/// Appends two frequencies or channels, or a position.
pub fn append_message<const N: usize>(out: &mut ArrayVec<u8, N>, message: &Message)
    requires { array_vec_len out.old + 24 ≤ N }
    ensures items { out.new.items ≡ out.old.items ++ written (grammar.message finish) (message_parts message.now none) }
    ensures len { array_vec_len out.new ≤ array_vec_len out.old + 24 }
{
    match message {
        Message::Fields(f1, f2) => append_frequencies(out, f1, f2),
        Message::At(position) => {
            append(out, b" at=");
            append_position(out, position);
        }
    }
}

/// Appends a category, a sender and two telecommands.
pub fn append_request<const N: usize>(
    out: &mut ArrayVec<u8, N>,
    category: &Category,
    from: &Mmsi,
    first: &First,
    second: &Second,
)
    requires { array_vec_len out.old + 44 ≤ N }
    ensures items { out.new.items ≡ out.old.items
        ++ written (grammar.request finish) (request_parts category.now from.now first.now second.now none) }
    ensures len { array_vec_len out.new ≡ array_vec_len out.old + 44 }
{
    append_sender(out, category, from);
    append(out, b" first=");
    append_digits(out, 3, u64::from(first.number()));
    append(out, b" second=");
    append_digits(out, 3, u64::from(second.number()));
}

/// Appends the symbol of an end of sequence.
pub fn append_end<const N: usize>(out: &mut ArrayVec<u8, N>, symbol: u8)
    requires { array_vec_len out.old + 8 ≤ N }
    ensures items { out.new.items ≡ out.old.items ++ written (grammar.end [] finish) (end_parts symbol none) }
    ensures len { array_vec_len out.new ≡ array_vec_len out.old + 8 }
{
    append(out, b" end=");
    append_digits(out, 3, u64::from(symbol));
}
