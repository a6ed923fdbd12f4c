//! What a ship alone does: a reader for each row.
ghost use Rattle.line_grammar.specs.Sections.{last, nth};
ghost use Rattle.line_grammar.specs.Rows.{ReadsRow};
ghost use Rattle.traffic_lines.specs.Events as rows;
ghost use Rattle.traffic_lines.specs.Events.{IsShipOwn, ship_parts};

use crate::lines::ShipOwn;
use crate::rows::{Begun, Rows, spelled, to_end};
use crate::values::Wait;
use call_texts::field;
use call_values::{Comm, Nature, Position};
use cursor::Cursor;
use line_grammar::{Left, begins_with, further};

/// Reads `position` and the ten digits of a position.
fn position(bytes: &[u8]) -> Result<ShipOwn, Left>
    ensures { ReadsRow rows.position (nth 0) IsShipOwn ship_parts bytes.now result }
{
    let position: Position = to_end(b"position ", bytes)?;
    let _ = position.known();
    Ok(ShipOwn::Position(position))
}

/// Reads `delay` and its milliseconds.
fn delay(bytes: &[u8]) -> Result<ShipOwn, Left>
    ensures { ReadsRow rows.delay (nth 1) IsShipOwn ship_parts bytes.now result }
{
    let wait: Wait = to_end(b"delay ", bytes)?;
    let _ = wait.delay.number();
    Ok(ShipOwn::Delay(wait.delay))
}

/// Reads `alert`, the nature of distress and the subsequent communications.
fn alert(bytes: &[u8]) -> Result<ShipOwn, Left>
    ensures { ReadsRow rows.alert (nth 2) IsShipOwn ship_parts bytes.now result }
{
    let mut line = Cursor::new(bytes);
    let nature: Nature = field(&mut line, b"alert nature=")?;
    let comm: Comm = to_end(b" then=", line.rest())?;
    let _ = nature.number();
    let _ = comm.number();
    Ok(ShipOwn::Alert(nature, comm))
}

/// Reads `cancel`.
fn cancel(bytes: &[u8]) -> Result<ShipOwn, Left>
    ensures { ReadsRow rows.cancel (last 3) IsShipOwn ship_parts bytes.now result }
{
    spelled(b"cancel", ShipOwn::Cancel, bytes)
}

impl Rows for ShipOwn {
    ghost rows = { rows.ship_rows };

    ghost lawful = { IsShipOwn };

    ghost parts = { ship_parts };

    fn read(bytes: &[u8]) -> Result<ShipOwn, Left> {
        let alerted = further(&alert(bytes), &cancel(bytes));
        let delayed = further(&delay(bytes), &alerted);
        further(&position(bytes), &delayed)
    }
}

impl Begun for ShipOwn {
    fn begins(bytes: &[u8]) -> bool {
        begins_with(b"pdac", bytes)
    }
}
