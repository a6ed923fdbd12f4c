//! The lines of traffic files, at any point.
ghost use Rattle.std.specs.Prelude.{◌≤◌, IfErr};
ghost use Rattle.line_grammar.specs.Columns.{ReadsAs};
ghost use Rattle.traffic_lines.specs.Lines.{IsTrafficLine, ship_point};
ghost use Rattle.traffic_lines.specs.Readings.{ReadsAt};
ghost use Rattle.dsc_files.specs.Files.{ReadsAtPoint};

use crate::events::{event_of, line_of_ship, line_of_station};
use input_lines::{JoinLine, LineFault, joined_line};
use std::alloc::Global;
use traffic_lines::{
    Point, TrafficLine, one_traffic_line, read_base, read_coast_line, read_ship_line, read_station,
};

/// What a line at a point of a traffic file says.
#[derive(Debug, Drop)]
pub enum PointLine {
    /// What a line of join's input says.
    Joined(JoinLine),
    /// What a line of the station says: who it is, its base, a group, or an event.
    Traffic(TrafficLine),
}

/// Reads a line of a ship's file as one of any file.
fn ship_traffic(groups: Option<u8>, bytes: &[u8]) -> Result<TrafficLine, usize>
    ensures { ReadsAt (ship_point groups) (λ says. says) bytes.now result }
{
    let says = read_ship_line(groups, bytes)?;
    Ok(line_of_ship(says))
}

/// Reads a line at this point.
fn line_at(point: Point, bytes: &[u8]) -> Result<TrafficLine, usize>
    ensures { ReadsAt point (λ says. says) bytes.now result }
{
    match point {
        Point::Station => Ok(line_of_station(read_station(bytes)?)),
        Point::Base => Ok(TrafficLine::Base(read_base(bytes)?)),
        Point::Groups { held } => ship_traffic(Some(held), bytes),
        Point::Ship => ship_traffic(None, bytes),
        Point::Coast => {
            let (at, what) = read_coast_line(bytes)?;
            let what = event_of(what);
            Ok(TrafficLine::Event { at, what })
        }
    }
}

/// What a line says at this point of a traffic file, where it is no empty line, comment, reception or evidence (this
/// project's profile). An error is the column: the least n, from 1, for which the first n bytes begin no such line of
/// this point, and the length plus one where the line ends too early.
pub fn read_traffic(point: Point, bytes: &[u8]) -> Result<TrafficLine, usize>
    ensures read { ReadsAs (IsTrafficLine point) bytes.now result }
    ensures counted { IfErr result (λ n. 1 ≤ n) }
{
    one_traffic_line();
    line_at(point, bytes)
}

/// Reads one line at this point of a traffic file. An error is the column of bytes that are no such line, or want of
/// memory.
pub fn point_line(alloc: Global, point: Point, line: &[u8]) -> Result<PointLine, LineFault>
    ensures { ReadsAtPoint point line.now result }
{
    match joined_line(alloc, point, line)? {
        Some(says) => Ok(PointLine::Joined(says)),
        None => Ok(PointLine::Traffic(read_traffic(point, line)?)),
    }
}
