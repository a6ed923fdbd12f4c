//! Positions, known or not.
ghost use Rattle.std.specs.Prelude.{◌≡◌, ◌↔◌, Option, IfSome, IsSome, IsTrue};
ghost use Rattle.call_values.specs.declared.positions.Fix.{Fix};
ghost use Rattle.call_values.specs.Positions.{IsArc, IsFix, IsPosition};

use std::marker::Model;

/// A place on the earth to the minute of arc. Quadrant 0 is north-east, 1 north-west, 2 south-east and
/// 3 south-west (ITU-R M.493, distress coordinates).
#[derive(Clone, Copy, Debug, PartialEq, Eq)]
pub struct Fix {
    /// 0 to 3 in a position.
    pub quadrant: u8,
    /// Whole degrees of latitude.
    pub lat_deg: u8,
    /// Minutes of latitude past the degrees, below 60 in a position.
    pub lat_min: u8,
    /// Whole degrees of longitude.
    pub lon_deg: u8,
    /// Minutes of longitude past the degrees, below 60 in a position.
    pub lon_min: u8,
}

/// The position in a distress call: a place, or that it is not known.
#[derive(Clone, Copy, Debug, PartialEq, Eq)]
pub struct Position {
    fix: Option<Fix>,
}

impl Model for Position {
    ghost Value = { Option Fix };

    ghost view = { λ a. a.fix };

    ghost invariant = { λ a. IsPosition a.fix };

    ghost inverse = { λ v. record { fix = v } };
}

impl Position {
    /// The position at a place, and `None` exactly where the quadrant passes 3, minutes pass 59, the
    /// latitude passes 90 degrees or the longitude 180.
    pub fn new(fix: Fix) -> Option<Position>
        ensures value { IfSome result (λ p. p ≡ Some fix) }
        ensures some { IsSome result ↔ IsFix fix }
    {
        if fix.quadrant <= 3
            && is_arc(fix.lat_deg, fix.lat_min, 90)
            && is_arc(fix.lon_deg, fix.lon_min, 180)
        {
            Some(Position { fix: Some(fix) })
        } else {
            None
        }
    }

    /// The position of a ship that does not say where it is.
    pub fn unknown() -> Position
        ensures { result ≡ None }
    {
        Position { fix: None }
    }

    /// The place, where it is known.
    pub fn known(&self) -> Option<Fix>
        ensures value { result ≡ self.now }
        ensures range { IsPosition result }
    {
        self.fix
    }
}

/// Whether degrees and minutes are an arc that passes no more than this many degrees.
fn is_arc(degrees: u8, minutes: u8, most: u8) -> bool
    ensures { IsTrue result ↔ IsArc degrees minutes most }
{
    minutes < 60 && (degrees < most || degrees == most && minutes == 0)
}
