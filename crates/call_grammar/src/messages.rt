//! Readers of areas, of frequency and channel fields, and of messages.
ghost use Rattle.std.specs.Prelude.{◌≡◌, ◌≤◌, ◌/◌};
ghost use Rattle.symbol_reader.specs.Letters.{Allows};
ghost use Rattle.symbol_reader.specs.inside.Reading.{Reads};
ghost use Rattle.call_grammar.specs.inside.Grammar as grammar;

use crate::fields::{longitude_ones, position};
use call_values::{Area, Field, Message};
use cursor::Cursor;
use dsc_symbols::messages::{NO_INFORMATION, POSITION_FOLLOWS, VHF_CHANNEL};
use symbol_reader::{Letter, Stop, symbol};

/// Reads an area's five characters (ITU-R M.493, geographical coordinates).
pub fn area(list: &mut Cursor) -> Result<Area, Stop>
    ensures { Reads grammar.Areas list.old result list.new }
{
    let a = symbol(list, Letter::UpTo(39))?;
    let b = symbol(list, area_latitude(a))?;
    let c = symbol(list, longitude_ones(b))?;
    let d = symbol(list, Letter::UpTo(99))?;
    let e = symbol(list, Letter::UpTo(99))?;
    let longitude = b % 10 * 100 + c;
    Ok(Area::new(a / 10, a % 10 * 10 + b / 10, longitude, d, e).unwrap())
}

/// The ones of the degrees of an area's northern edge and the hundreds of its longitude's degrees: at most 90 degrees
/// of latitude.
fn area_latitude(initial: u8) -> Letter
    ensures { result ≡ grammar.area_latitude initial }
{
    if initial % 10 == 9 {
        Letter::Digits(0, 1)
    } else {
        Letter::Digits(9, 1)
    }
}

/// Reads a frequency or channel field of three or four characters (ITU-R M.493, frequency or channel information).
pub fn field(list: &mut Cursor) -> Result<Field, Stop>
    ensures { Reads grammar.FieldWords list.old result list.new }
{
    let initial = symbol(list, Letter::Field)?;
    field_rest(list, initial)
}

/// Reads the two or three characters after the first of a frequency or channel field.
fn field_rest(list: &mut Cursor, initial: u8) -> Result<Field, Stop>
    requires { Allows Letter.Field initial }
    ensures { Reads (grammar.FieldRest initial) list.old result list.new }
{
    let b = symbol(list, field_letter(initial))?;
    let c = symbol(list, field_letter(initial))?;
    if initial / 10 == 4 {
        let d = symbol(list, Letter::UpTo(99))?;
        return Ok(long_field(initial, b, c, d));
    }
    Ok(short_field(initial, b, c))
}

/// A character after the first of a frequency or channel field: no information after no information, else two digits.
fn field_letter(initial: u8) -> Letter
    ensures { result ≡ grammar.field_letter initial }
{
    if initial == NO_INFORMATION {
        Letter::Exactly(NO_INFORMATION)
    } else {
        Letter::UpTo(99)
    }
}

/// The field of three characters.
fn short_field(initial: u8, b: u8, c: u8) -> Field
    requires initial { Allows Letter.Field initial }
    requires short { initial / 10 ≡ 4 → ⊥ }
    requires letters { Allows (grammar.field_letter initial) b × Allows (grammar.field_letter initial) c }
    ensures { result ≡ grammar.short_field initial b c }
{
    if initial == NO_INFORMATION {
        return Field::absent();
    }
    if initial == VHF_CHANNEL {
        return Field::vhf(u16::from(b) * 100 + u16::from(c)).unwrap();
    }
    let low = u32::from(b) * 100 + u32::from(c);
    if initial / 10 == 3 {
        Field::hf(u32::from(initial % 10) * 10_000 + low).unwrap()
    } else {
        Field::hundreds(u32::from(initial) * 10_000 + low).unwrap()
    }
}

/// The field of four characters.
fn long_field(initial: u8, b: u8, c: u8, d: u8) -> Field
    requires b { b ≤ 99 }
    requires c { c ≤ 99 }
    requires d { d ≤ 99 }
    ensures { result ≡ grammar.long_field initial b c d }
{
    let low = u32::from(b) * 10_000 + (u32::from(c) * 100 + u32::from(d));
    Field::tens(u32::from(initial % 10) * 1_000_000 + low).unwrap()
}

/// Reads two fields, or 55 and a position.
pub fn message(list: &mut Cursor) -> Result<Message, Stop>
    ensures { Reads grammar.Messages list.old result list.new }
{
    let initial = symbol(list, Letter::Message)?;
    if initial == POSITION_FOLLOWS {
        let position = position(list)?;
        return Ok(Message::At(position));
    }
    let f1 = field_rest(list, initial)?;
    let f2 = field(list)?;
    Ok(Message::Fields(f1, f2))
}
