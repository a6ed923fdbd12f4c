//! Readers of what follows the sender in a call to one station.
ghost use Rattle.symbol_reader.specs.inside.Reading.{Reads};
ghost use Rattle.call_grammar.specs.inside.Forms as forms;

use crate::fields::{position, time};
use crate::messages::message;
use crate::symbols::{Telecommand, blanks, either, end, first_to_one, second};
use call_values::{Call, Category, First, Kind, Mmsi};
use cursor::Cursor;
use dsc_symbols::ends::{ACKNOWLEDGE_BQ, ACKNOWLEDGE_RQ};
use dsc_symbols::messages::{NO_INFORMATION, POSITION_FOLLOWS};
use symbol_reader::{Letter, Stop, symbol};

/// Reads what follows the sender in a call to one station.
pub fn individual(list: &mut Cursor, to: Mmsi, category: Category, from: Mmsi) -> Result<Call, Stop>
    ensures { Reads (forms.Individuals to category from) list.old result list.new }
{
    let first = first_to_one(list)?;
    after_telecommand(list, to, category, from, first)
}

/// Reads what follows this first telecommand of a call to one station.
fn after_telecommand(
    list: &mut Cursor,
    to: Mmsi,
    category: Category,
    from: Mmsi,
    first: Telecommand,
) -> Result<Call, Stop>
    ensures { Reads (forms.AfterTelecommand to category from first) list.old result list.new }
{
    match first {
        Telecommand::Test => test_call(list, to, category, from),
        Telecommand::Position => position_call(list, to, category, from),
        Telecommand::Request(first) => other(list, to, category, from, first),
    }
}

/// Reads what follows the first telecommand of an individual call.
fn other(
    list: &mut Cursor,
    to: Mmsi,
    category: Category,
    from: Mmsi,
    first: First,
) -> Result<Call, Stop>
    ensures { Reads (forms.Others to category from first) list.old result list.new }
{
    let second = second(list)?;
    let message = message(list)?;
    let end = end(list)?;
    Ok(Call::Individual {
        to,
        category,
        from,
        first,
        second,
        message,
        end,
    })
}

/// Reads what follows the telecommand of a test or of the reply to one, which differ in their ends of sequence.
fn test_call(list: &mut Cursor, to: Mmsi, category: Category, from: Mmsi) -> Result<Call, Stop>
    ensures { Reads (forms.Tests to category from) list.old result list.new }
{
    symbol(list, Letter::Exactly(NO_INFORMATION))?;
    symbol(list, Letter::Exactly(NO_INFORMATION))?;
    blanks(list)?;
    let reply = either(list, ACKNOWLEDGE_BQ, ACKNOWLEDGE_RQ)?;
    Ok(Call::Service {
        to,
        category,
        from,
        kind: Kind::Test { reply },
    })
}

/// Reads what follows the telecommand of a call about a ship's position.
fn position_call(list: &mut Cursor, to: Mmsi, category: Category, from: Mmsi) -> Result<Call, Stop>
    ensures { Reads (forms.ShipPositions to category from) list.old result list.new }
{
    symbol(list, Letter::Exactly(NO_INFORMATION))?;
    let is_told = either(list, POSITION_FOLLOWS, NO_INFORMATION)?;
    after_told(list, to, category, from, is_told)
}

/// Reads what follows the symbol that says whether a position comes: the position, or the rest of a request for it.
fn after_told(
    list: &mut Cursor,
    to: Mmsi,
    category: Category,
    from: Mmsi,
    is_told: bool,
) -> Result<Call, Stop>
    ensures { Reads (forms.AfterTold to category from is_told) list.old result list.new }
{
    if is_told {
        answer(list, to, category, from)
    } else {
        question(list, to, category, from)
    }
}

/// Reads a position, its time and the end of sequence of a position answer.
fn answer(list: &mut Cursor, to: Mmsi, category: Category, from: Mmsi) -> Result<Call, Stop>
    ensures { Reads (forms.PositionAnswers to category from) list.old result list.new }
{
    let position = position(list)?;
    let time = time(list)?;
    symbol(list, Letter::Exactly(ACKNOWLEDGE_BQ))?;
    Ok(Call::Service {
        to,
        category,
        from,
        kind: Kind::Position(position, time),
    })
}

/// Reads the rest of a position request: characters of no information, and the end of sequence.
fn question(list: &mut Cursor, to: Mmsi, category: Category, from: Mmsi) -> Result<Call, Stop>
    ensures { Reads (forms.PositionRequests to category from) list.old result list.new }
{
    blanks(list)?;
    symbol(list, Letter::Exactly(ACKNOWLEDGE_RQ))?;
    Ok(Call::Service {
        to,
        category,
        from,
        kind: Kind::AskPosition,
    })
}
