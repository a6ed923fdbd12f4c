//! The lines in front of the events, and those of a ship: a reader for each row.
ghost use Rattle.call_texts.specs.CallGrammar.{identity};
ghost use Rattle.call_values.specs.Identity.{IsMmsi};
ghost use Rattle.line_grammar.specs.Sections.{last, nth};
ghost use Rattle.line_grammar.specs.Rows.{ReadsRow};
ghost use Rattle.traffic_lines.specs.Lines as rows;
ghost use Rattle.traffic_lines.specs.Lines.{IsAtMoment, IsBase, IsShipLine, IsStation, band_parts, base_parts, group_parts, moment_parts, ship_lines_parts, stations_parts};

use crate::lines::{Event, Hearing, ShipLine, ShipOwn, StationLine};
use crate::rows::{Rows, spelled, to_end};
use crate::values::{Number, Second};
use call_texts::{Token, field};
use call_values::{Band, Mmsi};
use cursor::Cursor;
use line_grammar::{Left, further, word};

/// The identity of a ship that is the station.
impl Rows for Mmsi {
    ghost rows = { rows.ship };

    ghost lawful = { IsMmsi };

    ghost parts = { group_parts };

    fn read(bytes: &[u8]) -> Result<Mmsi, Left> {
        let mmsi: Mmsi = to_end(b"station ship ", bytes)?;
        let _ = mmsi.number();
        Ok(mmsi)
    }
}

/// Reads `station ship` and the ship's identity.
fn ship(bytes: &[u8]) -> Result<StationLine, Left>
    ensures { ReadsRow rows.ship (nth 0) IsStation stations_parts bytes.now result }
{
    let mmsi = <Mmsi as Rows>::read(bytes)?;
    Ok(StationLine::Ship(mmsi))
}

/// The band in which a coast station works.
impl Rows for Band {
    ghost rows = { rows.band };

    ghost lawful = { λ _. Unit {0} };

    ghost parts = { band_parts };

    fn read(bytes: &[u8]) -> Result<Band, Left> {
        let hf = spelled(b" hf", Band::Hf, bytes);
        let others = further(&hf, &spelled(b" vhf", Band::Vhf, bytes));
        further(&spelled(b" mf", Band::Mf, bytes), &others)
    }
}

/// Reads `station coast`, the coast station's identity and its band.
fn coast(bytes: &[u8]) -> Result<StationLine, Left>
    ensures { ReadsRow (rows.coast identity) (last 1) IsStation stations_parts bytes.now result }
{
    let mut line = Cursor::new(bytes);
    let mmsi: Mmsi = field(&mut line, b"station coast ")?;
    let band = Band::read(line.rest())?;
    let _ = mmsi.number();
    Ok(StationLine::Coast(mmsi, band))
}

impl Rows for StationLine {
    ghost rows = { rows.stations };

    ghost lawful = { IsStation };

    ghost parts = { stations_parts };

    fn read(bytes: &[u8]) -> Result<StationLine, Left> {
        further(&ship(bytes), &coast(bytes))
    }
}

impl Rows for Second {
    ghost rows = { rows.base };

    ghost lawful = { IsBase };

    ghost parts = { base_parts };

    fn read(bytes: &[u8]) -> Result<Second, Left> {
        let second: Second = to_end(b"base ", bytes)?;
        let _ = second.number();
        Ok(second)
    }
}

/// A moment, a blank and what happens then.
impl<E: Rows> Rows for (u32, E) {
    ghost rows = { rows.at_moment E.rows };

    ghost lawful = { IsAtMoment E.lawful };

    ghost parts = { moment_parts E.parts };

    fn read(bytes: &[u8]) -> Result<(u32, E), Left> {
        let (at, rest) = Number::read(bytes)?;
        let rest = word(b" ", rest)?;
        let what = E::read(rest)?;
        Ok((at.number, what))
    }
}

/// Reads `group` and the identity of a group of ships.
fn group(bytes: &[u8]) -> Result<ShipLine, Left>
    ensures { ReadsRow rows.group (nth 0) IsShipLine ship_lines_parts bytes.now result }
{
    let mmsi: Mmsi = to_end(b"group ", bytes)?;
    let _ = mmsi.number();
    Ok(ShipLine::Group(mmsi))
}

/// Reads the moment of an event, and what happens at the ship.
fn event(bytes: &[u8]) -> Result<ShipLine, Left>
    ensures { ReadsRow rows.ship_event (last 1) IsShipLine ship_lines_parts bytes.now result }
{
    let (at, what) = <(u32, Event<ShipOwn, Hearing>)>::read(bytes)?;
    Ok(ShipLine::Event { at, what })
}

/// A group that a ship belongs to, or an event.
impl Rows for ShipLine {
    ghost rows = { rows.ship_lines };

    ghost lawful = { IsShipLine };

    ghost parts = { ship_lines_parts };

    fn read(bytes: &[u8]) -> Result<ShipLine, Left> {
        further(&group(bytes), &event(bytes))
    }
}
