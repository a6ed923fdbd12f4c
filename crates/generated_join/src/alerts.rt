//! The alerts of generated groups.
ghost use Rattle.std.specs.Prelude.{◌≡◌, ◌≤◌};
ghost use Rattle.generated_join.specs.Generator.{alert_of};

use call_values::{Call, Casualty, Comm, Fix, HourMinute, Mmsi, Nature, Position};
use dsc_symbols::natures::FIRE_OR_EXPLOSION;
use dsc_symbols::telecommands::ALL_MODES;

/// The identity of the ship of group 0; those of the other groups follow it.
pub const FIRST_SHIP: u32 = 338_000_000;

/// Where each ship is: 42 degrees 31 minutes north, 83 degrees 12 minutes west.
const FIX: Fix = Fix {
    quadrant: 1,
    lat_deg: 42,
    lat_min: 31,
    lon_deg: 83,
    lon_min: 12,
};

/// The distress alert of a group (ITU-R M.493, distress alert).
pub(crate) fn alert(group: u16) -> Call
    requires { group ≤ 1000 }
    ensures { result ≡ alert_of group }
{
    Call::Alert(Casualty {
        mmsi: Mmsi::new(FIRST_SHIP + u32::from(group)).unwrap(),
        nature: Nature::new(FIRE_OR_EXPLOSION + (group % 11) as u8).unwrap(),
        position: Position::new(FIX).unwrap(),
        time: HourMinute::new((group % 24) as u8, (group % 60) as u8).unwrap(),
        comm: Comm::new(ALL_MODES).unwrap(),
    })
}
