//! What the lines of traffic files say.
use call_values::{AlertDelay, Band, Call, CoastDelay, Comm, Mmsi, Nature, Position, To};
use expansion::Expansion;

/// Where a line is in a traffic file, not counting empty lines and comments: this decides which lines are well formed.
#[derive(Clone, Copy, Debug, PartialEq, Eq)]
pub enum Point {
    /// The first line, which names the station.
    Station,
    /// The second line, which names the base of a ship or of a coast station.
    Base,
    /// After a ship's base and so many groups, at most 16.
    Groups { held: u8 },
    /// After the first line of a ship that is no group.
    Ship,
    /// After a coast station's base.
    Coast,
}

/// What a station does: `O` is what its kind alone does.
#[derive(Clone, Copy, Debug, PartialEq, Eq)]
pub enum Deed<O> {
    /// What a station of its kind alone does.
    Own(O),
    /// Time passes.
    Tick,
    /// This call is to be sent.
    Send(Call),
    /// The call that is held under this number, 1 to 16, is answered where the flag is true, and declined where it is
    /// false.
    Answer(u8, bool),
}

/// An event of a station: `O` is what its kind alone does, and `C` what comes to it.
#[derive(Clone, Copy, Debug, PartialEq, Eq)]
pub enum Event<O, C> {
    /// The station does this.
    Does(Deed<O>),
    /// This comes to it.
    Comes(C),
}

/// What a ship alone does.
#[derive(Clone, Copy, Debug, PartialEq, Eq)]
pub enum ShipOwn {
    /// The ship is there, or doesn't know where it is.
    Position(Position),
    /// The wait from one attempt of an alert to the next.
    Delay(AlertDelay),
    /// An alert of this nature of distress, and the subsequent communications that it proposes.
    Alert(Nature, Comm),
    /// The alert is cancelled.
    Cancel,
}

/// What a coast station alone does.
#[derive(Clone, Copy, Debug, PartialEq, Eq)]
pub enum CoastOwn {
    /// The distress alert of this ship is to be acknowledged, so long after it as the delay says where one is given.
    Accept(Mmsi, Option<CoastDelay>),
    /// The distress alert of this ship is to be relayed. The flag says whether the relay asks for an acknowledgement.
    Relay(Mmsi, To, bool),
}

/// What a station of either kind alone does.
#[derive(Clone, Copy, Debug, PartialEq, Eq)]
pub enum StationOwn {
    /// The station is a ship.
    Ship(ShipOwn),
    /// The station is a coast station.
    Coast(CoastOwn),
}

/// What a station of a traffic file hears.
#[derive(Clone, Copy, Debug, PartialEq, Eq)]
pub enum Hearing {
    /// This call. The expansion that may come after it says nothing to a station.
    Hear(Call, Option<Expansion>),
    /// What the receivers of this group heard is joined.
    Heard(u32),
}

/// The line that names the station.
#[derive(Clone, Copy, Debug, PartialEq, Eq)]
pub enum StationLine {
    /// The station is this ship.
    Ship(Mmsi),
    /// The station is this coast station, which works in this band.
    Coast(Mmsi, Band),
}

/// A line after the base of a ship's file.
#[derive(Clone, Copy, Debug, PartialEq, Eq)]
pub enum ShipLine {
    /// The ship belongs to this group.
    Group(Mmsi),
    /// So many milliseconds after the base this happens.
    Event {
        at: u32,
        what: Event<ShipOwn, Hearing>,
    },
}

/// What a line of a traffic file says, where it is no empty line, comment, reception or evidence.
#[derive(Clone, Copy, Debug, PartialEq, Eq)]
pub enum TrafficLine {
    /// The station is this ship.
    Ship(Mmsi),
    /// The station is this coast station, which works in this band.
    Coast(Mmsi, Band),
    /// The second that moments count from, from the beginning of 1970, at most 9,999,999,999.
    Base(u64),
    /// The ship belongs to this group.
    Group(Mmsi),
    /// So many milliseconds after the base this happens.
    Event {
        at: u32,
        what: Event<StationOwn, Hearing>,
    },
}
