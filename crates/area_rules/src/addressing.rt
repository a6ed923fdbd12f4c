//! Which calls are for a ship or a coast station.
ghost use Rattle.std.specs.Prelude.{◌≡◌};
ghost use Rattle.area_rules.specs.Addressing.{is_for_ship, is_for_coast};

use crate::areas::contains;
use call_values::{Call, Mmsi, Position, To};

/// Whether a call is for a ship of this identity, these groups and this position (ITU-R M.493, format specifier and
/// address). Distress alerts, their acknowledgements and calls to all ships are for every ship.
pub fn for_ship(call: &Call, own: Mmsi, groups: &[Mmsi], position: &Position) -> bool
    ensures { result ≡ is_for_ship call.now own groups.now position.now }
{
    match call.address() {
        To::All => true,
        To::Area(area) => contains(&area, position),
        To::Group(group) => groups.contains(&group),
        To::One(station) => station.number() == own.number(),
    }
}

/// Whether a call is for a coast station of this identity (ITU-R M.493, format specifier and address). Distress alerts,
/// their acknowledgements and calls to all ships are for every coast station, calls to areas and groups for none.
pub fn for_coast(call: &Call, own: Mmsi) -> bool
    ensures { result ≡ is_for_coast call.now own }
{
    match call.address() {
        To::All => true,
        To::Area(_) | To::Group(_) => false,
        To::One(station) => station.number() == own.number(),
    }
}
