//! The events of a ship.
ghost use Rattle.ship_station.specs.Events.{IsShipWhat};

use call_values::{AlertDelay, Call, Comm, HourMinute, Nature, Position};

/// An event at a ship, at a moment in milliseconds.
#[derive(Clone, Copy, Debug, PartialEq, Eq)]
pub struct ShipEvent {
    pub at: u64,
    pub what: ShipWhat,
}

/// What happens at a ship (ITU-R M.541, operational procedures of a ship).
#[derive(Clone, Copy, Debug, PartialEq, Eq)]
pub enum ShipWhat {
    /// The ship's position, and the time at which it was there.
    Position(Position, HourMinute),
    /// One more delay between attempts of a distress alert, after those that are held.
    Delay(AlertDelay),
    /// A distress alert is begun: the nature of distress, and the communication that is to follow.
    Alert(Nature, Comm),
    /// The distress alert is ended by hand.
    Cancel,
    /// Time has passed.
    Tick,
    /// The operator sends a call.
    Send(Call),
    /// The operator accepts or declines the call that was got under a number: true accepts it.
    Answer(u8, bool),
    /// A call was heard.
    Heard(Call),
}

impl ShipWhat {
    /// The law that every event's parts are in their ranges. It does nothing.
    pub fn lawful(&self)
        ensures { IsShipWhat self.now }
    {
        match self {
            ShipWhat::Position(position, time) => {
                let _ = position.known();
                let _ = time.known();
            }
            ShipWhat::Delay(delay) => {
                let _ = delay.number();
            }
            ShipWhat::Alert(nature, comm) => {
                let _ = nature.number();
                let _ = comm.number();
            }
            ShipWhat::Cancel
            | ShipWhat::Tick
            | ShipWhat::Send(_)
            | ShipWhat::Answer(..)
            | ShipWhat::Heard(_) => {}
        }
    }
}
