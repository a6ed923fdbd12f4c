//! The lines of files of exchanges, at any point.
ghost use Rattle.std.specs.Prelude.{◌≤◌, IfErr};
ghost use Rattle.line_grammar.specs.Columns.{ReadsAs};
ghost use Rattle.traffic_lines.specs.Readings.{ReadsInWorld};
ghost use Rattle.traffic_lines.specs.Worlds.{IsWorldLine};
ghost use Rattle.input_lines.specs.Readings.{Reads};
ghost use Rattle.input_lines.specs.ReceiverLine.{IsNothing};
ghost use Rattle.input_lines.specs.WorldLine.{IsWorldFileLine};

use input_lines::{exchange_columns, says_nothing};
use traffic_lines::{
    ExchangePoint, WorldLine, one_world_line, read_end_event, read_exchange_base,
    read_exchange_coast, read_exchange_ship,
};

/// Reads a line at this point.
fn world_line_at(point: ExchangePoint, bytes: &[u8]) -> Result<WorldLine, usize>
    ensures { ReadsInWorld point (λ says. says) bytes.now result }
{
    match point {
        ExchangePoint::Ship => Ok(WorldLine::Ship(read_exchange_ship(bytes)?)),
        ExchangePoint::Coast { ship } => {
            let (mmsi, band) = read_exchange_coast(ship, bytes)?;
            Ok(WorldLine::Coast(mmsi, band))
        }
        ExchangePoint::Base => Ok(WorldLine::Base(read_exchange_base(bytes)?)),
        ExchangePoint::Events => Ok(WorldLine::EndEvent(read_end_event(bytes)?)),
    }
}

/// What a line says at this point of a file of an exchange, where it is no empty line or comment (this project's
/// profile). An error is the column: the least n, from 1, for which the first n bytes begin no such line of this point,
/// and the length plus one where the line ends too early.
pub fn read_world(point: ExchangePoint, bytes: &[u8]) -> Result<WorldLine, usize>
    ensures read { ReadsAs (IsWorldLine point) bytes.now result }
    ensures counted { IfErr result (λ n. 1 ≤ n) }
{
    one_world_line();
    world_line_at(point, bytes)
}

/// Reads a line that says something at this point of a file of an exchange. An error is the column of bytes that are no
/// such line.
fn said_in_world(point: ExchangePoint, line: &[u8]) -> Result<Option<WorldLine>, usize>
    requires { IsNothing line.now → ⊥ }
    ensures { Reads (IsWorldFileLine point) line.now result }
{
    exchange_columns();
    let says = read_world(point, line)?;
    Ok(Some(says))
}

/// Reads one line at this point of a file of an exchange. None says that the line says nothing: it is empty or a
/// comment. An error is the column of bytes that are no such line.
pub fn world_line(point: ExchangePoint, line: &[u8]) -> Result<Option<WorldLine>, usize>
    ensures { Reads (IsWorldFileLine point) line.now result }
{
    if says_nothing(line) {
        Ok(None)
    } else {
        said_in_world(point, line)
    }
}
