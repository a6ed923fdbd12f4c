//! The lines of traffic files.
ghost use Rattle.std.specs.Prelude.{◌≡◌, ◌∷◌, ◌⊎◌, ℕ, List, IsTrue, ◌↔◌};
ghost use Rattle.line_grammar.specs.Bytes.{letter_e, letter_r};
ghost use Rattle.input_lines.specs.Lines.{ReadsJoinedAt};
ghost use Rattle.input_lines.specs.PointLine.{IsBody};
ghost use Rattle.input_lines.specs.inside.Points.{IsStationsByte};

use crate::fault::LineFault;
use crate::join::{JoinLine, join_line};
use std::alloc::Global;
use traffic_lines::{Point, traffic_lines_begin};

/// Whether receptions and evidence may come at this point.
fn is_body(point: Point) -> bool
    ensures { IsTrue result ↔ IsBody point }
{
    match point {
        Point::Station | Point::Base => false,
        Point::Groups { .. } | Point::Ship | Point::Coast => true,
    }
}

/// No line of join's input begins as this line does at this point, so its faults are those of the station's lines.
fn stations_own(point: Point, line: &[u8]) -> Result<Option<JoinLine>, LineFault>
    requires { (b : ℕ) × (rest : List ℕ) × (line.now ≡ b ∷ rest) × IsStationsByte point b }
    ensures { ReadsJoinedAt point line.now result }
{
    Ok(None)
}

/// Reads a line that begins with `r` or `e`.
#[tactic(auto, using(crate::proofs::Choices::joined_line, crate::proofs::Choices::joined_fault))]
fn line_of_receivers(
    alloc: Global,
    point: Point,
    line: &[u8],
) -> Result<Option<JoinLine>, LineFault>
    requires { (b : ℕ) × (rest : List ℕ) × (line.now ≡ b ∷ rest) × ((b ≡ letter_r) ⊎ (b ≡ letter_e)) }
    ensures { ReadsJoinedAt point line.now result }
{
    if is_body(point) {
        traffic_lines_begin();
        Ok(Some(join_line(alloc, line)?))
    } else {
        stations_own(point, line)
    }
}

/// Reads a line of join's input at this point of a traffic file. None says that it is no such line: what it says is
/// read as a line of the station. An error is the column of bytes that are no line of the point, or want of memory.
pub fn joined_line(alloc: Global, point: Point, line: &[u8]) -> Result<Option<JoinLine>, LineFault>
    ensures { ReadsJoinedAt point line.now result }
{
    let Some((first, _)) = line.split_first() else {
        return Ok(Some(JoinLine::Nothing));
    };
    match *first {
        b'#' => Ok(Some(JoinLine::Nothing)),
        b'r' | b'e' => line_of_receivers(alloc, point, line),
        _ => stations_own(point, line),
    }
}
