//! Whether a position is in an area.
ghost use Rattle.std.specs.Prelude.{◌≡◌, ◌+◌, ◌*◌, ◌<◌, ◌≤◌, ◌≤ℤ◌, ◌-ℤ◌, pos, neg_ℤ, int_le};
ghost use Rattle.std.specs.Int.{int_rem_euclid};
ghost use Rattle.area_rules.specs.Inside as inside;

use call_values::{Area, Fix, Position};

/// The minutes of arc once round the earth.
const ROUND: i32 = 21_600;

/// Whether a position is in an area (ITU-R M.493, geographical coordinates of an area call), edges included. Longitude
/// goes on across 180 degrees. A position that isn't known is in every area (this project's profile).
pub fn contains(area: &Area, position: &Position) -> bool
    ensures { result ≡ inside.is_inside area.now position.now }
{
    match position.known() {
        None => true,
        Some(fix) => is_in(area, &fix),
    }
}

/// Whether a known position is in an area, edges included.
fn is_in(area: &Area, fix: &Fix) -> bool
    ensures { result ≡ inside.is_in area.now fix.now }
{
    is_at_latitude(area, fix) && is_at_longitude(area, fix)
}

/// Whether a position is between the northern and the southern edge of an area, both included.
fn is_at_latitude(area: &Area, fix: &Fix) -> bool
    ensures { result ≡ inside.is_at_latitude area.now fix.now }
{
    let north = latitude(area.quadrant(), area.latitude(), 0);
    let latitude = latitude(fix.quadrant, fix.lat_deg, fix.lat_min);
    is_at_most(latitude, north) && is_at_most(southward(north, area.south()), latitude)
}

/// Whether a position is between the western and the eastern edge of an area, both included.
fn is_at_longitude(area: &Area, fix: &Fix) -> bool
    ensures { result ≡ inside.is_at_longitude area.now fix.now }
{
    let west = longitude(area.quadrant(), area.longitude(), 0);
    let longitude = longitude(fix.quadrant, fix.lon_deg, fix.lon_min);
    is_at_most(eastward(west, longitude), arc(area.east()))
}

/// Whether a number of minutes of arc is at most another.
fn is_at_most(a: i32, b: i32) -> bool
    ensures { result ≡ int_le a b }
{
    a <= b
}

/// So many degrees southward of a latitude, in minutes of arc.
fn southward(latitude: i32, degrees: u8) -> i32
    requires low { neg_ℤ (pos 20000) ≤ℤ latitude }
    requires high { latitude ≤ℤ pos 20000 }
    ensures { result ≡ latitude -ℤ pos (60 * degrees) }
{
    latitude - arc(degrees)
}

/// How far a longitude is eastward of another one, once round the earth at most, in minutes of arc.
fn eastward(from: i32, to: i32) -> i32
    requires from_low { neg_ℤ (pos 20000) ≤ℤ from }
    requires from_high { from ≤ℤ pos 20000 }
    requires to_low { neg_ℤ (pos 20000) ≤ℤ to }
    requires to_high { to ≤ℤ pos 20000 }
    ensures { result ≡ int_rem_euclid (to -ℤ from) (pos 21600) }
{
    (to - from).rem_euclid(ROUND)
}

/// Degrees in minutes of arc.
fn arc(degrees: u8) -> i32
    ensures value { result ≡ pos (60 * degrees) }
    ensures low { pos 0 ≤ℤ result }
    ensures high { result ≤ℤ pos 20000 }
{
    60 * i32::from(degrees)
}

/// A latitude in minutes of arc, north positive.
fn latitude(quadrant: u8, degrees: u8, minutes: u8) -> i32
    ensures value { result ≡ inside.latitude_of quadrant degrees minutes }
    ensures low { neg_ℤ (pos 20000) ≤ℤ result }
    ensures high { result ≤ℤ pos 20000 }
{
    signed(quadrant < 2, degrees, minutes)
}

/// A longitude in minutes of arc, east positive.
fn longitude(quadrant: u8, degrees: u8, minutes: u8) -> i32
    ensures value { result ≡ inside.longitude_of quadrant degrees minutes }
    ensures low { neg_ℤ (pos 20000) ≤ℤ result }
    ensures high { result ≤ℤ pos 20000 }
{
    signed(quadrant % 2 == 0, degrees, minutes)
}

/// Degrees and minutes in minutes of arc, on the positive side or on the other.
fn signed(is_positive: bool, degrees: u8, minutes: u8) -> i32
    ensures value { result ≡ inside.signed is_positive (60 * degrees + minutes) }
    ensures low { neg_ℤ (pos 20000) ≤ℤ result }
    ensures high { result ≤ℤ pos 20000 }
{
    let arc = arc(degrees) + i32::from(minutes);
    if is_positive { arc } else { -arc }
}
