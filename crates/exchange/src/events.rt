//! The events of an exchange: those of the two stations, and deliveries.
use coast_station::CoastEvent;
use ship_station::ShipEvent;

/// What happens in an exchange (this project's profile): an event at one end, or a call of the other end that comes to
/// it. Moments are in milliseconds, and calls are counted from 0 on in the order in which an end sent them.
#[derive(Clone, Copy, Debug, PartialEq, Eq)]
pub enum WorldEvent {
    /// An event at the ship, which isn't a heard call.
    Ship(ShipEvent),
    /// An event at the coast station, which isn't a heard call.
    Coast(CoastEvent),
    /// The coast station's call of this number comes to the ship.
    ShipGets { at: u64, number: u32 },
    /// The ship's call of this number comes to the coast station.
    CoastGets { at: u64, number: u32 },
}
