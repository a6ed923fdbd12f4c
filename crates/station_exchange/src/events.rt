//! The events that event lines give.
ghost use Rattle.std.specs.Prelude.{◌≡◌, ◌≤◌};
ghost use Rattle.station_exchange.specs.Events as events;

use call_values::bounds::LAST_BASE;
use coast_station::{Coast, CoastEvent};
use exchange::WorldEvent;
use ship_station::{Ship, ShipEvent};
use station_lines::OfLines;
use traffic_lines::{EndEvent, Event};

/// The event of an event line, where moments count from this second.
pub(crate) fn event_of(base: u64, entry: &EndEvent) -> WorldEvent
    requires { base ≤ LAST_BASE }
    ensures { result ≡ events.event_of base entry.now }
{
    match *entry {
        EndEvent::AtShip {
            at,
            what: Event::Does(deed),
        } => WorldEvent::Ship(ShipEvent {
            at: u64::from(at),
            what: Ship::deed(base, at, &deed),
        }),
        EndEvent::AtShip {
            at,
            what: Event::Comes(number),
        } => WorldEvent::ShipGets {
            at: u64::from(at),
            number,
        },
        EndEvent::AtCoast {
            at,
            what: Event::Does(deed),
        } => WorldEvent::Coast(CoastEvent {
            at: u64::from(at),
            what: Coast::deed(base, at, &deed),
        }),
        EndEvent::AtCoast {
            at,
            what: Event::Comes(number),
        } => WorldEvent::CoastGets {
            at: u64::from(at),
            number,
        },
    }
}
