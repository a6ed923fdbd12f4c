//! Readers of the characters of an expansion, set by set.
ghost use Rattle.std.specs.Prelude.{◌≡◌, ◌≤◌};
ghost use Rattle.symbol_reader.specs.inside.Reading.{Reads};
ghost use Rattle.expansion.specs.inside.Grammar as grammar;

use crate::parts::Part;
use crate::specifiers::{COURSE, ENHANCED_POSITION, SPEED};
use crate::values::{Expansion, Sets};
use call_values::End;
use cursor::Cursor;
use dsc_symbols::messages::NO_INFORMATION;
use symbol_reader::{Letter, Stop, symbol};

/// Reads what the check covers: the sets of an expansion and this end of sequence.
pub fn checked_sets(list: &mut Cursor, end: End) -> Result<Expansion, Stop>
    ensures { Reads (grammar.CheckedSets end) list.old result list.new }
{
    let sets = set_words(list, end.symbol())?;
    Ok(Expansion::new(sets.enhanced, sets.speed, sets.course).unwrap())
}

/// Reads the sets, one at least, and this end of sequence.
fn set_words(list: &mut Cursor, end: u8) -> Result<Sets, Stop>
    ensures { Reads (grammar.SetWords end) list.old result list.new }
{
    let first = symbol(list, Letter::OneOf(ENHANCED_POSITION, SPEED, COURSE))?;
    after_first(list, first, end)
}

/// Reads what follows the first specifier.
fn after_first(list: &mut Cursor, first: u8, end: u8) -> Result<Sets, Stop>
    ensures { Reads (grammar.AfterFirst end first) list.old result list.new }
{
    if first != ENHANCED_POSITION {
        return after_enhanced(list, Part::left_out(), first, end);
    }
    let enhanced = eight_digits(list)?;
    let next = symbol(list, Letter::OneOf(SPEED, COURSE, end))?;
    after_enhanced(list, enhanced, next, end)
}

/// Reads what follows this specifier or end of sequence, after the enhanced position.
fn after_enhanced(list: &mut Cursor, enhanced: Part, next: u8, end: u8) -> Result<Sets, Stop>
    ensures { Reads (grammar.AfterEnhanced end enhanced next) list.old result list.new }
{
    if next != SPEED {
        return after_speed(list, enhanced, Part::left_out(), next, end);
    }
    let speed = four_digits(list, 99)?;
    let later = symbol(list, Letter::Either(COURSE, end))?;
    after_speed(list, enhanced, speed, later, end)
}

/// Reads what follows this specifier or end of sequence, after the enhanced position and the speed.
fn after_speed(
    list: &mut Cursor,
    enhanced: Part,
    speed: Part,
    next: u8,
    end: u8,
) -> Result<Sets, Stop>
    ensures { Reads (grammar.AfterSpeed end enhanced speed next) list.old result list.new }
{
    if next != COURSE {
        let course = Part::left_out();
        return Ok(Sets {
            enhanced,
            speed,
            course,
        });
    }
    let course = four_digits(list, 35)?;
    symbol(list, Letter::Exactly(end))?;
    Ok(Sets {
        enhanced,
        speed,
        course,
    })
}

/// Reads eight digits, or no information.
fn eight_digits(list: &mut Cursor) -> Result<Part, Stop>
    ensures { Reads grammar.EightDigits list.old result list.new }
{
    let initial = symbol(list, Letter::UpToOr(99, NO_INFORMATION))?;
    if initial == NO_INFORMATION {
        return Ok(Part::none());
    }
    let b = symbol(list, Letter::UpTo(99))?;
    let c = symbol(list, Letter::UpTo(99))?;
    let d = symbol(list, Letter::UpTo(99))?;
    Ok(Part::digits(eight_of(initial, b, c, d)))
}

/// The number whose eight digits are in these characters.
fn eight_of(a: u8, b: u8, c: u8, d: u8) -> u32
    ensures { result ≡ grammar.eight_of a b c d }
{
    let high = u32::from(a) * 100 + u32::from(b);
    (high * 100 + u32::from(c)) * 100 + u32::from(d)
}

/// Reads four digits, the first two at most so much, or no information.
fn four_digits(list: &mut Cursor, most: u8) -> Result<Part, Stop>
    requires { most ≤ 99 }
    ensures { Reads (grammar.FourDigits most) list.old result list.new }
{
    let initial = symbol(list, Letter::UpToOr(most, NO_INFORMATION))?;
    if initial == NO_INFORMATION {
        return Ok(Part::none());
    }
    let last = symbol(list, Letter::UpTo(99))?;
    Ok(Part::digits(u32::from(initial) * 100 + u32::from(last)))
}
