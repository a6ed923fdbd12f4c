//! Parts of calls that have several forms: addresses, messages, and kinds of test and position calls.
ghost use Rattle.call_values.specs.Parts.{IsTo, IsMessage, IsKind};

use crate::{Area, Field, HourMinute, Mmsi, Position};

/// Who a distress relay is addressed to (ITU-R M.493, format specifier and address).
#[derive(Clone, Copy, Debug, PartialEq, Eq)]
pub enum To {
    /// All ships.
    All,
    /// The ships in an area.
    Area(Area),
    /// A group of ships, by the group's identity.
    Group(Mmsi),
    /// One station.
    One(Mmsi),
}

impl To {
    /// The law that every address' parts are in their ranges. It does nothing.
    pub fn lawful(&self)
        ensures { IsTo self.now }
    {
        match self {
            To::All => {}
            To::Area(area) => area.lawful(),
            To::Group(mmsi) | To::One(mmsi) => {
                let _ = mmsi.number();
            }
        }
    }
}

/// What an individual call says besides its telecommands (ITU-R M.493, messages).
#[derive(Clone, Copy, Debug, PartialEq, Eq)]
pub enum Message {
    /// Two frequency or channel fields.
    Fields(Field, Field),
    /// The position of the calling ship.
    At(Position),
}

impl Message {
    /// The law that every message's parts are in their ranges.
    pub fn lawful(&self)
        ensures { IsMessage self.now }
    {
        match self {
            Message::At(position) => {
                let _ = position.known();
            }
            Message::Fields(first, second) => {
                let _ = first.kind();
                let _ = second.kind();
            }
        }
    }
}

/// The kinds of a service call to one station (ITU-R M.493, test and ship position).
#[derive(Clone, Copy, Debug, PartialEq, Eq)]
pub enum Kind {
    /// A test, or the reply to one.
    Test { reply: bool },
    /// A request for the ship's position.
    AskPosition,
    /// The ship's position, and the time at which it was there.
    Position(Position, HourMinute),
}

impl Kind {
    /// The law that every kind's parts are in their ranges.
    pub fn lawful(&self)
        ensures { IsKind self.now }
    {
        match self {
            Kind::Test { reply: _ } | Kind::AskPosition => {}
            Kind::Position(position, time) => {
                let _ = position.known();
                let _ = time.known();
            }
        }
    }
}
