//! Readers of the fields of call texts: positions, times, areas, frequencies and addresses.
#![tactic(auto, unfolding(line_grammar::specs::inside::Reading::read_token))]

ghost use Rattle.std.specs.Prelude.{◌≡◌, ◌≤◌, ◌<◌, ◌^◌, ◌++◌, ◌∷◌, [], IfOk, IfErr, Ok, Err, codes, true};
ghost use Rattle.line_grammar.specs.Shapes as shape;
ghost use Rattle.line_grammar.specs.Shapes.{digits, is_within};
ghost use Rattle.line_grammar.specs.inside.Reading.{read_shape, read_token};
ghost use Rattle.call_values.specs.Positions.{IsArc};
ghost use Rattle.call_texts.specs.CallGrammar as grammar;
ghost use Rattle.call_texts.specs.CallParts as texts;

use crate::tokens::Token;
use call_values::bounds::{
    EIGHT_DIGITS, HF_CHANNELS, LAST_HUNDREDS, SIX_DIGITS, TENS, VHF_CHANNELS,
};
use call_values::{Area, Field, Fix, HourMinute, Mmsi, Position, To};
use line_grammar::{Left, fixed_number, fixed_number_to, further, word};

/// The value that letters at the front of these bytes stand for, and what follows them.
pub fn spelled<'a, T: Drop>(text: &[u8], value: T, bytes: &'a [u8]) -> Result<(T, &'a [u8]), Left>
    ensures value { IfOk result (λ parts. parts.0 ≡ value) }
    ensures rest { IfOk result (λ parts. read_shape (shape.letters text.now) bytes.now ≡ Ok (text.now, parts.1.now)) }
    ensures left { IfErr result (λ left. read_shape (shape.letters text.now) bytes.now ≡ Err left) }
{
    let rest = word(text, bytes)?;
    Ok((value, rest))
}

/// A number of at most this in so many digits at the front of these bytes, and what follows it. Where the width is a
/// constant, the loop folds.
#[inline(always)]
fn up_to(width: usize, most: u8, bytes: &[u8]) -> Result<(u8, &[u8]), Left>
    requires width { width ≤ 3 }
    requires most { most < 10 ^ width }
    ensures range { IfOk result (λ parts. parts.0 ≤ most) }
    ensures value { IfOk result (λ parts. read_shape (shape.fixed_number width ((0, most) ∷ [])) bytes.now
        ≡ Ok (digits width parts.0, parts.1.now)) }
    ensures left { IfErr result (λ left. read_shape (shape.fixed_number width ((0, most) ∷ [])) bytes.now ≡ Err left) }
{
    let (number, rest) = fixed_number_to(width, u64::from(most), bytes)?;
    Ok((number as u8, rest))
}

/// Hours or degrees, at most so many and in so many digits, and two digits of minutes at the front of these bytes, and
/// what follows them.
#[inline(always)]
fn with_minutes(width: usize, most: u8, bytes: &[u8]) -> Result<((u8, u8), &[u8]), Left>
    requires width { width ≤ 3 }
    requires most { most < 10 ^ width }
    ensures range { IfOk result (λ parts. (parts.0.0 ≤ most) × (parts.0.1 < 60)) }
    ensures value { IfOk result (λ parts. read_shape (shape.pair (shape.fixed_number width ((0, most)
        ∷ [])) grammar.minutes) bytes.now ≡ Ok (digits width parts.0.0 ++ digits 2 parts.0.1, parts.1.now)) }
    ensures left { IfErr result (λ left. read_shape (shape.pair (shape.fixed_number width ((0, most)
        ∷ [])) grammar.minutes) bytes.now ≡ Err left) }
{
    let (whole, rest) = up_to(width, most, bytes)?;
    let (minutes, rest) = up_to(2, 59, rest)?;
    Ok(((whole, minutes), rest))
}

/// Degrees and minutes of latitude at the front of these bytes, and what follows them.
fn latitude(bytes: &[u8]) -> Result<((u8, u8), &[u8]), Left>
    ensures range { IfOk result (λ parts. IsArc parts.0.0 parts.0.1 90) }
    ensures value { IfOk result (λ parts. read_shape grammar.latitude bytes.now
        ≡ Ok (digits 2 parts.0.0 ++ digits 2 parts.0.1, parts.1.now)) }
    ensures left { IfErr result (λ left. read_shape grammar.latitude bytes.now ≡ Err left) }
{
    let below = with_minutes(2, 89, bytes);
    if below.is_ok() {
        return below;
    }
    let pole = spelled(b"9000", (90, 0), bytes);
    further(&below, &pole)
}

/// Degrees and minutes of longitude at the front of these bytes, and what follows them.
fn longitude(bytes: &[u8]) -> Result<((u8, u8), &[u8]), Left>
    ensures range { IfOk result (λ parts. IsArc parts.0.0 parts.0.1 180) }
    ensures value { IfOk result (λ parts. read_shape grammar.longitude bytes.now
        ≡ Ok (digits 3 parts.0.0 ++ digits 2 parts.0.1, parts.1.now)) }
    ensures left { IfErr result (λ left. read_shape grammar.longitude bytes.now ≡ Err left) }
{
    let below = with_minutes(3, 179, bytes);
    if below.is_ok() {
        return below;
    }
    let line = spelled(b"18000", (180, 0), bytes);
    further(&below, &line)
}

/// The ten digits of a place at the front of these bytes, and what follows them.
fn known_position(bytes: &[u8]) -> Result<(Position, &[u8]), Left>
    ensures value { IfOk result (λ parts. read_shape (shape.pair (shape.fixed_number 1 ((0, 3)
        ∷ [])) (shape.pair grammar.latitude grammar.longitude)) bytes.now
        ≡ Ok (texts.position_text parts.0, parts.1.now)) }
    ensures left { IfErr result (λ left. read_shape (shape.pair (shape.fixed_number 1 ((0, 3)
        ∷ [])) (shape.pair grammar.latitude grammar.longitude)) bytes.now ≡ Err left) }
{
    let (quadrant, rest) = up_to(1, 3, bytes)?;
    let ((lat_deg, lat_min), rest) = latitude(rest)?;
    let ((lon_deg, lon_min), rest) = longitude(rest)?;
    let fix = Fix {
        quadrant,
        lat_deg,
        lat_min,
        lon_deg,
        lon_min,
    };
    Ok((Position::new(fix).unwrap(), rest))
}

/// The ten digits of a position, or nines.
impl Token for Position {
    ghost token = { grammar.position };

    ghost text = { λ v. texts.position_text v };

    fn read(bytes: &[u8]) -> Result<(Position, &[u8]), Left> {
        let known = known_position(bytes);
        if known.is_ok() {
            return known;
        }
        let unknown = spelled(b"9999999999", Position::unknown(), bytes);
        further(&known, &unknown)
    }
}

/// The four digits of an hour and a minute at the front of these bytes, and what follows them.
fn known_time(bytes: &[u8]) -> Result<(HourMinute, &[u8]), Left>
    ensures value { IfOk result (λ parts. read_shape (shape.pair (shape.fixed_number 2 ((0, 23)
        ∷ [])) grammar.minutes) bytes.now ≡ Ok (texts.time_text parts.0, parts.1.now)) }
    ensures left { IfErr result (λ left. read_shape (shape.pair (shape.fixed_number 2 ((0, 23)
        ∷ [])) grammar.minutes) bytes.now ≡ Err left) }
{
    let ((hour, minute), rest) = with_minutes(2, 23, bytes)?;
    Ok((HourMinute::new(hour, minute).unwrap(), rest))
}

/// The four digits of an hour and a minute, or eights.
impl Token for HourMinute {
    ghost token = { grammar.time };

    ghost text = { λ v. texts.time_text v };

    fn read(bytes: &[u8]) -> Result<(HourMinute, &[u8]), Left> {
        let known = known_time(bytes);
        if known.is_ok() {
            return known;
        }
        let unknown = spelled(b"8888", HourMinute::unknown(), bytes);
        further(&known, &unknown)
    }
}

/// The ten digits of an area.
impl Token for Area {
    ghost token = { grammar.area };

    ghost text = { λ v. texts.area_text v };

    fn read(bytes: &[u8]) -> Result<(Area, &[u8]), Left> {
        let (quadrant, rest) = up_to(1, 3, bytes)?;
        let (latitude, rest) = up_to(2, 90, rest)?;
        let (longitude, rest) = up_to(3, 180, rest)?;
        let (south, rest) = up_to(2, 99, rest)?;
        let (east, rest) = up_to(2, 99, rest)?;
        let area = Area::new(quadrant, latitude, longitude, south, east).unwrap();
        Ok((area, rest))
    }
}

/// The field of six digits that stand for this number.
fn of_six_digits(number: u32) -> Field
    requires { is_within SIX_DIGITS number ≡ true }
    ensures { digits 6 number ≡ texts.frequency_text result }
{
    match number {
        0..=LAST_HUNDREDS => Field::hundreds(number).unwrap(),
        HF_CHANNELS..VHF_CHANNELS => Field::hf(number - HF_CHANNELS).unwrap(),
        _ => Field::vhf((number - VHF_CHANNELS) as u16).unwrap(),
    }
}

/// Hundreds of hertz or a channel in six digits at the front of these bytes, and what follows them.
fn six_digits(bytes: &[u8]) -> Result<(Field, &[u8]), Left>
    ensures value { IfOk result (λ parts. read_shape (shape.fixed_number 6 SIX_DIGITS) bytes.now
        ≡ Ok (texts.frequency_text parts.0, parts.1.now)) }
    ensures left { IfErr result (λ left. read_shape (shape.fixed_number 6 SIX_DIGITS) bytes.now ≡ Err left) }
{
    let (number, rest) = fixed_number(6, &SIX_DIGITS, bytes)?;
    Ok((of_six_digits(number as u32), rest))
}

/// Tens of hertz in eight digits at the front of these bytes, and what follows them.
fn eight_digits(bytes: &[u8]) -> Result<(Field, &[u8]), Left>
    ensures value { IfOk result (λ parts. read_shape (shape.fixed_number 8 EIGHT_DIGITS) bytes.now
        ≡ Ok (texts.frequency_text parts.0, parts.1.now)) }
    ensures left { IfErr result (λ left. read_shape (shape.fixed_number 8 EIGHT_DIGITS) bytes.now ≡ Err left) }
{
    let (number, rest) = fixed_number(8, &EIGHT_DIGITS, bytes)?;
    Ok((Field::tens(number as u32 - TENS).unwrap(), rest))
}

/// The six or eight digits of a frequency or channel at the front of these bytes, and what follows them.
fn six_or_eight_digits(bytes: &[u8]) -> Result<(Field, &[u8]), Left>
    ensures value { IfOk result (λ parts. read_shape (shape.choice (shape.fixed_number 6 SIX_DIGITS) (shape.fixed_number
        8 EIGHT_DIGITS)) bytes.now ≡ Ok (texts.frequency_text parts.0, parts.1.now)) }
    ensures left { IfErr result (λ left. read_shape (shape.choice (shape.fixed_number 6 SIX_DIGITS) (shape.fixed_number
        8 EIGHT_DIGITS)) bytes.now ≡ Err left) }
{
    let six = six_digits(bytes);
    if six.is_ok() {
        return six;
    }
    further(&six, &eight_digits(bytes))
}

/// The six or eight digits of a frequency or channel, or none.
impl Token for Field {
    ghost token = { grammar.frequency };

    ghost text = { λ v. texts.frequency_text v };

    fn read(bytes: &[u8]) -> Result<(Field, &[u8]), Left> {
        let absent = spelled(b"none", Field::absent(), bytes);
        if absent.is_ok() {
            return absent;
        }
        further(&absent, &six_or_eight_digits(bytes))
    }
}

/// An area after its word at the front of these bytes, and what follows it.
fn to_area(bytes: &[u8]) -> Result<(To, &[u8]), Left>
    ensures value { IfOk result (λ parts. read_shape (shape.pair (shape.letters (codes "area:")) grammar.area_shape)
        bytes.now ≡ Ok (texts.address_text parts.0, parts.1.now)) }
    ensures left { IfErr result (λ left. read_shape (shape.pair (shape.letters (codes "area:")) grammar.area_shape)
        bytes.now ≡ Err left) }
{
    let rest = word(b"area:", bytes)?;
    let (area, rest) = match Area::read(rest) {
        Ok(parts) => parts,
        Err(left) => return Err(left),
    };
    Ok((To::Area(area), rest))
}

/// A group's identity after its word at the front of these bytes, and what follows it.
fn to_group(bytes: &[u8]) -> Result<(To, &[u8]), Left>
    ensures value { IfOk result (λ parts. read_shape (shape.pair (shape.letters (codes "group:"))
        grammar.identity_shape) bytes.now ≡ Ok (texts.address_text parts.0, parts.1.now)) }
    ensures left { IfErr result (λ left. read_shape (shape.pair (shape.letters (codes "group:")) grammar.identity_shape)
        bytes.now ≡ Err left) }
{
    let rest = word(b"group:", bytes)?;
    let (group, rest) = match Mmsi::read(rest) {
        Ok(parts) => parts,
        Err(left) => return Err(left),
    };
    Ok((To::Group(group), rest))
}

/// A station's identity after its word at the front of these bytes, and what follows it.
fn to_one(bytes: &[u8]) -> Result<(To, &[u8]), Left>
    ensures value { IfOk result (λ parts. read_shape (shape.pair (shape.letters (codes "one:")) grammar.identity_shape)
        bytes.now ≡ Ok (texts.address_text parts.0, parts.1.now)) }
    ensures left { IfErr result (λ left. read_shape (shape.pair (shape.letters (codes "one:")) grammar.identity_shape)
        bytes.now ≡ Err left) }
{
    let rest = word(b"one:", bytes)?;
    let (station, rest) = match Mmsi::read(rest) {
        Ok(parts) => parts,
        Err(left) => return Err(left),
    };
    Ok((To::One(station), rest))
}

/// Who a relay is addressed to: all, or an area, a group or a station after a word.
impl Token for To {
    ghost token = { grammar.address };

    ghost text = { λ v. texts.address_text v };

    fn read(bytes: &[u8]) -> Result<(To, &[u8]), Left> {
        let all = spelled(b"all", To::All, bytes);
        let numbered = further(&to_group(bytes), &to_one(bytes));
        let some = further(&to_area(bytes), &numbered);
        further(&all, &some)
    }
}
