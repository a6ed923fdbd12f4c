//! Readers of identities, positions, times and casualties.
ghost use Rattle.std.specs.Prelude.{◌≡◌, ◌≤◌, ◌∷◌, []};
ghost use Rattle.symbol_reader.specs.inside.Reading.{Reads};
ghost use Rattle.dsc_symbols.specs.Natures.{IsNature};
ghost use Rattle.dsc_symbols.specs.Telecommands.{IsComm};
ghost use Rattle.call_grammar.specs.inside.Grammar as grammar;
ghost use Rattle.symbol_reader.specs.inside.Languages.{Spelled};

use call_values::{Casualty, Comm, Fix, HourMinute, Mmsi, Nature, Position};
use cursor::Cursor;
use dsc_symbols::messages::{UNKNOWN_POSITION, UNKNOWN_TIME};
use symbol_reader::{Letter, Stop, symbol};

/// Reads nine digits and a 0, two to a character (ITU-R M.493, self-identification).
pub fn identity(list: &mut Cursor) -> Result<Mmsi, Stop>
    ensures { Reads grammar.Identities list.old result list.new }
{
    let a = symbol(list, Letter::UpTo(99))?;
    let b = symbol(list, Letter::UpTo(99))?;
    let c = symbol(list, Letter::UpTo(99))?;
    let d = symbol(list, Letter::UpTo(99))?;
    let e = symbol(list, Letter::Digits(9, 0))?;
    Ok(identity_of(a, b, c, d, e))
}

/// The identity whose nine digits and a 0 are in these characters.
fn identity_of(a: u8, b: u8, c: u8, d: u8, e: u8) -> Mmsi
    requires a { a ≤ 99 }
    requires b { b ≤ 99 }
    requires c { c ≤ 99 }
    requires d { d ≤ 99 }
    requires e { e ≤ 99 }
    ensures { result ≡ grammar.identity_of a b c d e }
{
    let millions = u32::from(a) * 100 + u32::from(b);
    let thousands = millions * 100 + u32::from(c);
    let number = thousands * 1000 + u32::from(d) * 10 + u32::from(e) / 10;
    Mmsi::new(number).unwrap()
}

/// Reads a nature of distress.
fn nature(list: &mut Cursor) -> Result<Nature, Stop>
    ensures { Reads (Spelled IsNature (λ n. n ∷ [])) list.old result list.new }
{
    let symbol = symbol(list, Letter::Nature)?;
    Ok(Nature::new(symbol).unwrap())
}

/// Reads the subsequent communications of a distress call.
fn comm(list: &mut Cursor) -> Result<Comm, Stop>
    ensures { Reads (Spelled IsComm (λ n. n ∷ [])) list.old result list.new }
{
    let symbol = symbol(list, Letter::Comm)?;
    Ok(Comm::new(symbol).unwrap())
}

/// Reads a position, known or not (ITU-R M.493, distress coordinates).
pub fn position(list: &mut Cursor) -> Result<Position, Stop>
    ensures { Reads grammar.Positions list.old result list.new }
{
    let initial = symbol(list, Letter::UpToOr(39, UNKNOWN_POSITION))?;
    if initial == UNKNOWN_POSITION {
        unknown_rest(list)
    } else {
        known_rest(list, initial)
    }
}

/// Reads the four characters after the first of a position that isn't known: 99 each.
fn unknown_rest(list: &mut Cursor) -> Result<Position, Stop>
    ensures { Reads grammar.UnknownRest list.old result list.new }
{
    let nines = Letter::Exactly(UNKNOWN_POSITION);
    symbol(list, nines)?;
    symbol(list, nines)?;
    symbol(list, nines)?;
    symbol(list, nines)?;
    Ok(Position::unknown())
}

/// Reads the four characters after the first of a known position: the rest of its ten digits (ITU-R M.493, distress
/// coordinates).
fn known_rest(list: &mut Cursor, initial: u8) -> Result<Position, Stop>
    requires { initial ≤ 39 }
    ensures { Reads (grammar.KnownRest initial) list.old result list.new }
{
    let b = symbol(list, latitude_ones(initial))?;
    let c = symbol(list, minutes_and_hundreds(initial))?;
    let d = symbol(list, longitude_ones(c))?;
    let e = symbol(list, longitude_minutes(c, d))?;
    let fix = Fix {
        quadrant: initial / 10,
        lat_deg: initial % 10 * 10 + b / 10,
        lat_min: b % 10 * 10 + c / 10,
        lon_deg: c % 10 * 100 + d,
        lon_min: e,
    };
    Ok(Position::new(fix).unwrap())
}

/// The ones of a latitude's degrees and the tens of its minutes, after the quadrant and the tens of degrees: at most 90
/// degrees in all.
fn latitude_ones(initial: u8) -> Letter
    ensures { result ≡ grammar.latitude_ones initial }
{
    if initial % 10 == 9 {
        Letter::Exactly(0)
    } else {
        Letter::Digits(9, 5)
    }
}

/// The ones of a latitude's minutes and the hundreds of a longitude's degrees: no minutes at 90 degrees.
fn minutes_and_hundreds(initial: u8) -> Letter
    ensures { result ≡ grammar.minutes_and_hundreds initial }
{
    if initial % 10 == 9 {
        Letter::UpTo(1)
    } else {
        Letter::Digits(9, 1)
    }
}

/// The tens and ones of a longitude's degrees after its hundreds: at most 180 degrees in all (ITU-R M.493, position).
pub fn longitude_ones(hundreds: u8) -> Letter
    ensures { result ≡ grammar.longitude_ones hundreds }
{
    if hundreds % 10 == 1 {
        Letter::UpTo(80)
    } else {
        Letter::UpTo(99)
    }
}

/// The minutes of a longitude after its degrees, 0 to 59: none at 180 degrees.
fn longitude_minutes(hundreds: u8, ones: u8) -> Letter
    ensures { result ≡ grammar.longitude_minutes hundreds ones }
{
    if hundreds % 10 == 1 && ones == 80 {
        Letter::Exactly(0)
    } else {
        Letter::UpTo(59)
    }
}

/// Reads a time, known or not (ITU-R M.493, time of a distress alert).
pub fn time(list: &mut Cursor) -> Result<HourMinute, Stop>
    ensures { Reads grammar.Times list.old result list.new }
{
    let hour = symbol(list, Letter::UpToOr(23, UNKNOWN_TIME))?;
    if hour == UNKNOWN_TIME {
        symbol(list, Letter::Exactly(UNKNOWN_TIME))?;
        return Ok(HourMinute::unknown());
    }
    let minute = symbol(list, Letter::UpTo(59))?;
    Ok(HourMinute::new(hour, minute).unwrap())
}

/// Reads how a distress call describes a casualty.
pub fn casualty(list: &mut Cursor) -> Result<Casualty, Stop>
    ensures { Reads grammar.Casualties list.old result list.new }
{
    let mmsi = identity(list)?;
    let nature = nature(list)?;
    let position = position(list)?;
    let time = time(list)?;
    let comm = comm(list)?;
    Ok(Casualty {
        mmsi,
        nature,
        position,
        time,
        comm,
    })
}
