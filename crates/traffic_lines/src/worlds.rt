//! What the lines of files of exchanges say.
use crate::lines::{CoastOwn, Event, ShipOwn};
use call_values::{Band, Mmsi};

/// Where a line is in a file of an exchange, not counting empty lines and comments: this decides which lines are well
/// formed.
#[derive(Clone, Copy, Debug, PartialEq, Eq)]
pub enum ExchangePoint {
    /// The first line, which names the ship.
    Ship,
    /// The second line, which names the coast station: another identity than this ship's.
    Coast { ship: Mmsi },
    /// The third line, which names the base.
    Base,
    /// After the base.
    Events,
}

/// What an event line of an exchange says: at which end it happens, so many milliseconds after the base. What comes to
/// an end is the call that the other end sent under this number, from 0.
#[derive(Clone, Copy, Debug, PartialEq, Eq)]
pub enum EndEvent {
    /// At the ship.
    AtShip { at: u32, what: Event<ShipOwn, u32> },
    /// At the coast station.
    AtCoast { at: u32, what: Event<CoastOwn, u32> },
}

/// What a line of a file of an exchange says, where it is no empty line or comment.
#[derive(Clone, Copy, Debug, PartialEq, Eq)]
pub enum WorldLine {
    /// One end is this ship.
    Ship(Mmsi),
    /// The other is this coast station, which works in this band.
    Coast(Mmsi, Band),
    /// The second that moments count from, from the beginning of 1970, at most 9,999,999,999.
    Base(u64),
    /// What happens at one end.
    EndEvent(EndEvent),
}
