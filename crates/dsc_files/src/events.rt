//! The events of ships, of coast stations and of exchanges, as events of any file.
ghost use Rattle.std.specs.Prelude.{◌≡◌};
ghost use Rattle.dsc_files.specs.Events as events;
ghost use Rattle.traffic_lines.specs.Lines as lines;
ghost use Rattle.traffic_lines.specs.declared.lines.StationOwn.{StationOwn as AnyOwn};
ghost use Rattle.traffic_lines.specs.declared.lines.StationOwn.TheVariants as own;

use call_values::{AlertDelay, Call, CoastDelay, Comm, Mmsi, Nature, Position, To};
use traffic_lines::{
    CoastOwn, Deed, Event, Hearing, ShipLine, ShipOwn, StationLine, StationOwn, TrafficLine,
};

/// What an event line of any file says after its moment. `Position`, `Delay`, `Alert` and `Cancel` come in files of
/// ships alone, `Accept` and `Relay` in those of coast stations alone, and the others in both.
#[derive(Clone, Copy, Debug, PartialEq, Eq)]
pub enum EventLine {
    /// The ship is there, or doesn't know where it is.
    Position(Position),
    /// The wait from one attempt of an alert to the next.
    Delay(AlertDelay),
    /// An alert of this nature of distress, and the subsequent communications that it proposes.
    Alert(Nature, Comm),
    /// The alert is cancelled.
    Cancel,
    /// Time passes.
    Tick,
    /// This call is to be sent.
    Send(Call),
    /// The call that is held under this number, 1 to 16, is answered where the flag is true, and declined where it is
    /// false.
    Answer(u8, bool),
    /// This call is heard.
    Hear(Call),
    /// What the receivers of this group heard is joined.
    Heard(u32),
    /// The distress alert of this ship is to be acknowledged, so long after it as the delay says where one is given.
    Accept(Mmsi, Option<CoastDelay>),
    /// The distress alert of this ship is to be relayed. The flag says whether the relay asks for an acknowledgement.
    Relay(Mmsi, To, bool),
}

/// What an event line of an exchange says after its moment, at either end.
#[derive(Clone, Copy, Debug, PartialEq, Eq)]
pub enum ExchangeLine {
    /// An event of that end's own.
    Event(EventLine),
    /// The call that the other end sent under this number, from 0, comes to this end.
    Get(u32),
}

/// What a station of one kind alone does, as what a station of either kind does.
pub(crate) trait OfKind: Copy {
    /// Its name there.
    ghost name: { Self → AnyOwn };

    /// The same under this name.
    fn named(self) -> StationOwn
        ensures { result ≡ name self };

    /// The same as an event line of any file says it.
    fn line(self) -> EventLine
        ensures { result ≡ events.own_line (name self) };
}

impl OfKind for ShipOwn {
    ghost name = { own.Ship };

    fn named(self) -> StationOwn {
        StationOwn::Ship(self)
    }

    fn line(self) -> EventLine {
        match self {
            ShipOwn::Position(position) => EventLine::Position(position),
            ShipOwn::Delay(delay) => EventLine::Delay(delay),
            ShipOwn::Alert(nature, comm) => EventLine::Alert(nature, comm),
            ShipOwn::Cancel => EventLine::Cancel,
        }
    }
}

impl OfKind for CoastOwn {
    ghost name = { own.Coast };

    fn named(self) -> StationOwn {
        StationOwn::Coast(self)
    }

    fn line(self) -> EventLine {
        match self {
            CoastOwn::Accept(ship, delay) => EventLine::Accept(ship, delay),
            CoastOwn::Relay(ship, to, ask) => EventLine::Relay(ship, to, ask),
        }
    }
}

/// What a station of one kind does, as a deed of a station.
fn deed_of<O: OfKind>(deed: Deed<O>) -> Deed<StationOwn>
    ensures { result ≡ lines.deed_with O.name deed }
{
    match deed {
        Deed::Own(what) => Deed::Own(what.named()),
        Deed::Tick => Deed::Tick,
        Deed::Send(call) => Deed::Send(call),
        Deed::Answer(number, accepts) => Deed::Answer(number, accepts),
    }
}

/// What a station does.
fn deed_line(deed: Deed<StationOwn>) -> EventLine
    ensures { result ≡ events.deed_line deed }
{
    match deed {
        Deed::Own(StationOwn::Ship(own)) => own.line(),
        Deed::Own(StationOwn::Coast(own)) => own.line(),
        Deed::Tick => EventLine::Tick,
        Deed::Send(call) => EventLine::Send(call),
        Deed::Answer(number, accepts) => EventLine::Answer(number, accepts),
    }
}

/// An event of a traffic file.
pub(crate) fn event_line(event: Event<StationOwn, Hearing>) -> EventLine
    ensures { result ≡ events.event_line event }
{
    match event {
        Event::Does(deed) => deed_line(deed),
        Event::Comes(Hearing::Hear(call, _)) => EventLine::Hear(call),
        Event::Comes(Hearing::Heard(group)) => EventLine::Heard(group),
    }
}

/// What happens at an end of an exchange.
pub(crate) fn exchange_line<O: OfKind>(event: Event<O, u32>) -> ExchangeLine
    ensures { result ≡ events.exchange_line O.name event }
{
    match event {
        Event::Does(deed) => ExchangeLine::Event(deed_line(deed_of(deed))),
        Event::Comes(number) => ExchangeLine::Get(number),
    }
}

/// The line that names the station.
pub(crate) fn line_of_station(says: StationLine) -> TrafficLine
    ensures { result ≡ lines.line_of_station says }
{
    match says {
        StationLine::Ship(mmsi) => TrafficLine::Ship(mmsi),
        StationLine::Coast(mmsi, band) => TrafficLine::Coast(mmsi, band),
    }
}

/// An event in the file of a station of one kind.
pub(crate) fn event_of<O: OfKind>(event: Event<O, Hearing>) -> Event<StationOwn, Hearing>
    ensures { result ≡ lines.event_with O.name event }
{
    match event {
        Event::Does(deed) => Event::Does(deed_of(deed)),
        Event::Comes(what) => Event::Comes(what),
    }
}

/// A line after the base of a ship's file.
pub(crate) fn line_of_ship(says: ShipLine) -> TrafficLine
    ensures { result ≡ lines.line_of_ship says }
{
    match says {
        ShipLine::Group(mmsi) => TrafficLine::Group(mmsi),
        ShipLine::Event { at, what } => TrafficLine::Event {
            at,
            what: event_of(what),
        },
    }
}
