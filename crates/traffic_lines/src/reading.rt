//! Readers of the lines of a traffic file, by the point of each.
ghost use Rattle.std.specs.Prelude.{◌<◌, Some};
ghost use Rattle.traffic_lines.specs.Lines.{IsFull, line_of_coast, line_of_ship, line_of_ship_event, line_of_station, ship_point};
ghost use Rattle.traffic_lines.specs.Readings.{ReadsAt};
ghost use Rattle.traffic_lines.specs.declared.lines.Point.TheVariants.{Station, Base, Ship, Coast};
ghost use Rattle.traffic_lines.specs.declared.lines.TrafficLine.TheVariants as line;

use crate::lines::{CoastOwn, Event, Hearing, ShipLine, ShipOwn, StationLine};
use crate::rows::whole;
use crate::values::Second;

/// How many groups a ship belongs to at most.
const MOST_SHIP_GROUPS: u8 = 16;

/// The station that the first line of a traffic file names. An error is the column: the least n, from 1, for which the
/// first n bytes begin no such line, and the length plus one where the line ends too early.
pub fn read_station(bytes: &[u8]) -> Result<StationLine, usize>
    ensures { ReadsAt Station line_of_station bytes.now result }
{
    whole(bytes)
}

/// The second from the beginning of 1970, at most 9,999,999,999, that the second line of a traffic file names. An error
/// is the column, as in `read_station`.
pub fn read_base(bytes: &[u8]) -> Result<u64, usize>
    ensures { ReadsAt Base (λ second. line.Base second) bytes.now result }
{
    let second = whole::<Second>(bytes)?;
    Ok(second.number())
}

/// Reads an event of a ship, where no group may come.
fn read_no_group(groups: Option<u8>, bytes: &[u8]) -> Result<ShipLine, usize>
    requires { IsFull groups }
    ensures { ReadsAt (ship_point groups) line_of_ship bytes.now result }
{
    let (at, what) = whole::<(u32, Event<ShipOwn, Hearing>)>(bytes)?;
    Ok(ShipLine::Event { at, what })
}

/// Reads a group or an event, after fewer than sixteen groups.
fn read_group_or_event(held: u8, bytes: &[u8]) -> Result<ShipLine, usize>
    requires { held < 16 }
    ensures { ReadsAt (ship_point (Some held)) line_of_ship bytes.now result }
{
    whole(bytes)
}

/// What a line says after the base of a ship's file: after so many groups, at most 16, or after the first line that is
/// none. An error is the column, as in `read_station`.
pub fn read_ship_line(groups: Option<u8>, bytes: &[u8]) -> Result<ShipLine, usize>
    ensures { ReadsAt (ship_point groups) line_of_ship bytes.now result }
{
    match groups {
        Some(held) if held < MOST_SHIP_GROUPS => read_group_or_event(held, bytes),
        _ => read_no_group(groups, bytes),
    }
}

/// What a line says after the first event of a ship's file, and the milliseconds after the base. It is what
/// `read_ship_line` reads there. An error is the column, as in `read_station`.
pub fn read_ship_event(bytes: &[u8]) -> Result<(u32, Event<ShipOwn, Hearing>), usize>
    ensures { ReadsAt Ship line_of_ship_event bytes.now result }
{
    whole(bytes)
}

/// What a line says after the base of a coast station's file, and the milliseconds after the base. An error is the
/// column, as in `read_station`.
pub fn read_coast_line(bytes: &[u8]) -> Result<(u32, Event<CoastOwn, Hearing>), usize>
    ensures { ReadsAt Coast line_of_coast bytes.now result }
{
    whole(bytes)
}
