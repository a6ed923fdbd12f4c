//! What a coast station alone does: a reader for each row.
ghost use Rattle.line_grammar.specs.Sections.{last, nth};
ghost use Rattle.line_grammar.specs.Rows.{ReadsRow};
ghost use Rattle.traffic_lines.specs.Events as rows;
ghost use Rattle.traffic_lines.specs.Events.{IsCoastOwn, IsPerhapsDelay, ask_parts, coast_parts, delay_parts};

use crate::lines::CoastOwn;
use crate::rows::{Begun, Rows, spelled, to_end};
use crate::values::AckWait;
use call_texts::field;
use call_values::{CoastDelay, Mmsi, To};
use cursor::Cursor;
use line_grammar::{Left, begins_with, end, further};

/// Reads that no delay is given.
fn no_delay(bytes: &[u8]) -> Result<Option<CoastDelay>, Left>
    ensures { ReadsRow (λ rest. rest) (nth 0) IsPerhapsDelay delay_parts bytes.now result }
{
    end(bytes)?;
    Ok(None)
}

/// Reads a delay.
fn some_delay(bytes: &[u8]) -> Result<Option<CoastDelay>, Left>
    ensures { ReadsRow rows.some_delay (last 1) IsPerhapsDelay delay_parts bytes.now result }
{
    let wait: AckWait = to_end(b" ", bytes)?;
    let _ = wait.delay.number();
    Ok(Some(wait.delay))
}

/// Reads a delay, or that none is given.
fn perhaps_delay(bytes: &[u8]) -> Result<Option<CoastDelay>, Left>
    ensures { ReadsRow rows.perhaps_delay (last 0) IsPerhapsDelay delay_parts bytes.now result }
{
    further(&no_delay(bytes), &some_delay(bytes))
}

/// Reads `accept`, the ship's identity and perhaps a delay.
fn accept(bytes: &[u8]) -> Result<CoastOwn, Left>
    ensures { ReadsRow rows.accept (nth 0) IsCoastOwn coast_parts bytes.now result }
{
    let mut line = Cursor::new(bytes);
    let ship: Mmsi = field(&mut line, b"accept ")?;
    let delay = perhaps_delay(line.rest())?;
    let _ = ship.number();
    Ok(CoastOwn::Accept(ship, delay))
}

/// Reads whether an acknowledgement is asked for.
fn ask_or_tell(bytes: &[u8]) -> Result<bool, Left>
    ensures { ReadsRow rows.ask_or_tell (last 0) (λ _. Unit {0}) ask_parts bytes.now result }
{
    further(
        &spelled(b" ask", true, bytes),
        &spelled(b" tell", false, bytes),
    )
}

/// Reads `relay`, the ship's identity, the address, and whether an acknowledgement is asked for.
fn relay(bytes: &[u8]) -> Result<CoastOwn, Left>
    ensures { ReadsRow rows.relay (last 1) IsCoastOwn coast_parts bytes.now result }
{
    let mut line = Cursor::new(bytes);
    let ship: Mmsi = field(&mut line, b"relay ")?;
    let to: To = field(&mut line, b" to=")?;
    let ask = ask_or_tell(line.rest())?;
    let _ = ship.number();
    to.lawful();
    Ok(CoastOwn::Relay(ship, to, ask))
}

impl Rows for CoastOwn {
    ghost rows = { rows.coast_rows };

    ghost lawful = { IsCoastOwn };

    ghost parts = { coast_parts };

    fn read(bytes: &[u8]) -> Result<CoastOwn, Left> {
        further(&accept(bytes), &relay(bytes))
    }
}

impl Begun for CoastOwn {
    fn begins(bytes: &[u8]) -> bool {
        begins_with(b"ar", bytes)
    }
}
