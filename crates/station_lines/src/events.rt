//! The events that stations have by what lines say.
ghost use Rattle.std.specs.Prelude.{◌≡◌, ◌≤◌, ℕ};
ghost use Rattle.traffic_lines.specs.declared.lines.Deed.{Deed};
ghost use Rattle.station_lines.specs.Events as events;

use crate::civil_minute;
use call_values::bounds::LAST_BASE;
use call_values::{HourMinute, Position};
use coast_station::{Coast, CoastWhat};
use ship_station::{Ship, ShipWhat};
use stations::Station;
use traffic_lines::{CoastOwn, Deed, ShipOwn};

/// The time of a position: that of its line's moment in UTC, and unknown where the position is.
fn time_at(base: u64, at: u32, position: &Position) -> HourMinute
    requires { base ≤ LAST_BASE }
    ensures { result ≡ events.time_of base at position.now }
{
    match position.known() {
        Some(_) => civil_minute(base, at),
        None => HourMinute::unknown(),
    }
}

/// The event at a ship by what it alone does.
fn own_ship_event(base: u64, at: u32, own: &ShipOwn) -> ShipWhat
    requires { base ≤ LAST_BASE }
    ensures { result ≡ events.own_ship_event base at own.now }
{
    match *own {
        ShipOwn::Position(position) => ShipWhat::Position(position, time_at(base, at, &position)),
        ShipOwn::Delay(delay) => ShipWhat::Delay(delay),
        ShipOwn::Alert(nature, comm) => ShipWhat::Alert(nature, comm),
        ShipOwn::Cancel => ShipWhat::Cancel,
    }
}

/// A station of a kind whose events lines of files say.
pub trait OfLines: Station {
    /// What it alone does.
    type Own: Copy;

    /// What happens by a deed of a line, where moments count from a second of UTC.
    ghost does: { (base at : ℕ) → Deed Self.Own → Self.What };

    /// The event by a deed of a line: `base` is the second of UTC from which moments count, and `at` the moment in
    /// milliseconds.
    fn deed(base: u64, at: u32, deed: &Deed<Self::Own>) -> Self::What
        requires { base ≤ LAST_BASE }
        ensures { result ≡ does base at deed.now };
}

impl OfLines for Ship {
    type Own = ShipOwn;

    ghost does = { events.ship_deed };

    fn deed(base: u64, at: u32, deed: &Deed<ShipOwn>) -> ShipWhat {
        match *deed {
            Deed::Own(own) => own_ship_event(base, at, &own),
            Deed::Tick => ShipWhat::Tick,
            Deed::Send(call) => ShipWhat::Send(call),
            Deed::Answer(number, accepts) => ShipWhat::Answer(number, accepts),
        }
    }
}

impl OfLines for Coast {
    type Own = CoastOwn;

    ghost does = { λ base at. events.coast_deed };

    fn deed(_base: u64, _at: u32, deed: &Deed<CoastOwn>) -> CoastWhat {
        match *deed {
            Deed::Own(CoastOwn::Accept(mmsi, delay)) => CoastWhat::Accept(mmsi, delay),
            Deed::Own(CoastOwn::Relay(mmsi, to, ask)) => CoastWhat::Relay(mmsi, to, ask),
            Deed::Tick => CoastWhat::Tick,
            Deed::Send(call) => CoastWhat::Send(call),
            Deed::Answer(number, accepts) => CoastWhat::Answer(number, accepts),
        }
    }
}
