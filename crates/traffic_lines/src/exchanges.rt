//! Readers of the lines of an exchange.
ghost use Rattle.line_grammar.specs.Sections.{last, nth};
ghost use Rattle.line_grammar.specs.Rows.{ReadsRow};
ghost use Rattle.traffic_lines.specs.Readings.{ReadsInWorld};
ghost use Rattle.traffic_lines.specs.Worlds as worlds;
ghost use Rattle.traffic_lines.specs.Worlds.{IsEndEvent, end_event_parts};
ghost use Rattle.traffic_lines.specs.declared.worlds.ExchangePoint.TheVariants as point;
ghost use Rattle.traffic_lines.specs.declared.worlds.WorldLine.TheVariants as line;

use crate::lines::{CoastOwn, Event, ShipOwn};
use crate::others::other_coast;
use crate::rows::{Rows, whole};
use crate::values::Second;
use crate::worlds::EndEvent;
use call_values::{Band, Mmsi};
use line_grammar::{Left, column, further, word};

/// The ship that the first line of a file of an exchange names. An error is the column: the least n, from 1, for which
/// the first n bytes begin no such line, and the length plus one where the line ends too early.
pub fn read_exchange_ship(bytes: &[u8]) -> Result<Mmsi, usize>
    ensures { ReadsInWorld point.Ship (λ mmsi. line.Ship mmsi) bytes.now result }
{
    whole(bytes)
}

/// The coast station, another than this ship, that the second line of a file of an exchange names, and its band. An
/// error is the column, as in `read_exchange_ship`: at the ship's own identity that of its last digit.
pub fn read_exchange_coast(ship: Mmsi, bytes: &[u8]) -> Result<(Mmsi, Band), usize>
    ensures { ReadsInWorld (point.Coast ship) (λ says. line.Coast says.0 says.1) bytes.now result }
{
    let _ = ship.number();
    match other_coast(ship, bytes) {
        Ok(says) => Ok(says),
        Err(left) => Err(column(bytes, left)),
    }
}

/// The second from the beginning of 1970, at most 9,999,999,999, that the third line of a file of an exchange names. An
/// error is the column, as in `read_exchange_ship`.
pub fn read_exchange_base(bytes: &[u8]) -> Result<u64, usize>
    ensures { ReadsInWorld point.Base (λ second. line.Base second) bytes.now result }
{
    let second = whole::<Second>(bytes)?;
    Ok(second.number())
}

/// Reads `s` and an event of the ship.
fn at_ship(bytes: &[u8]) -> Result<EndEvent, Left>
    ensures { ReadsRow worlds.at_ship (nth 0) IsEndEvent end_event_parts bytes.now result }
{
    let rest = word(b"s ", bytes)?;
    let (at, what) = <(u32, Event<ShipOwn, u32>)>::read(rest)?;
    Ok(EndEvent::AtShip { at, what })
}

/// Reads `c` and an event of the coast station.
fn at_coast(bytes: &[u8]) -> Result<EndEvent, Left>
    ensures { ReadsRow worlds.at_coast (last 1) IsEndEvent end_event_parts bytes.now result }
{
    let rest = word(b"c ", bytes)?;
    let (at, what) = <(u32, Event<CoastOwn, u32>)>::read(rest)?;
    Ok(EndEvent::AtCoast { at, what })
}

impl Rows for EndEvent {
    ghost rows = { worlds.end_event };

    ghost lawful = { IsEndEvent };

    ghost parts = { end_event_parts };

    /// The end that the event is at ends the search.
    fn read(bytes: &[u8]) -> Result<EndEvent, Left> {
        let ship = at_ship(bytes);
        if ship.is_ok() {
            return ship;
        }
        let coast = at_coast(bytes);
        if coast.is_ok() {
            return coast;
        }
        further(&ship, &coast)
    }
}

/// What an event line of a file of an exchange says. An error is the column, as in `read_exchange_ship`.
pub fn read_end_event(bytes: &[u8]) -> Result<EndEvent, usize>
    ensures { ReadsInWorld point.Events (λ says. line.EndEvent says) bytes.now result }
{
    whole(bytes)
}
