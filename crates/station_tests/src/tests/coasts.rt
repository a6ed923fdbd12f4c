//! Rows of events at a coast station.
use crate::tests::worked::{
    Station, and, casualty, follow, mmsi, nothing, sent, service, unplaced,
};
use call_values::{Call, Casualty, CoastDelay, Kind, To};
use coast_station::*;
use std::test::Fail;
use traffic_rules::{Act, Acts, StationRefusal, single};

const COAST: u32 = 2_241_022;

const OTHER_COAST: u32 = 2_320_001;

const SHIP: u32 = 338_040_079;

const OTHER_SHIP: u32 = 338_158_137;

impl Station for Coast {
    type What = CoastWhat;

    fn go(&mut self, at: u64, what: CoastWhat, acts: &mut Acts) -> Result<(), StationRefusal> {
        self.step_into(&CoastEvent { at, what }, acts)
    }
}

/// A new station in this band.
fn coast(band: Band) -> Result<Coast, Fail> {
    Ok(Coast::new(mmsi(COAST)?, band))
}

fn accept(number: u32, milliseconds: u32) -> Result<CoastWhat, Fail> {
    Ok(CoastWhat::Accept(mmsi(number)?, CoastDelay::new(milliseconds)))
}

fn heard(casualty: Casualty) -> CoastWhat {
    CoastWhat::Heard(Call::Alert(casualty))
}

fn acknowledged(casualty: Casualty) -> Result<Acts, Fail> {
    let from = mmsi(COAST)?;
    Ok(sent(Call::Ack { from, casualty }))
}

fn distress(casualty: Casualty) -> Acts {
    single(Act::Distress(casualty))
}

#[test]
fn on_mf_an_alert_waits_for_its_acknowledgement(rt: HostRuntime) -> Result<(), Fail> {
    let first = casualty(SHIP, 20, 19)?;
    let second = casualty(SHIP, 20, 20)?;
    let third = casualty(SHIP, 20, 21)?;
    let rows = [
        (0, heard(first), Ok(distress(first))),
        (
            1_000,
            CoastWhat::Accept(first.mmsi, None),
            Err(StationRefusal::NeedsDelay),
        ),
        (1_000, heard(second), Ok(distress(second))),
        (5_000, accept(SHIP, 60_000)?, Ok(nothing())),
        (6_000, accept(SHIP, 70_000)?, Ok(nothing())),
        (7_000, heard(third), Ok(distress(third))),
        (60_999, CoastWhat::Tick, Ok(nothing())),
        (61_000, CoastWhat::Tick, Ok(acknowledged(second)?)),
        (61_000, CoastWhat::Tick, Ok(nothing())),
        (
            61_000,
            accept(SHIP, 60_000)?,
            Err(StationRefusal::NoCasualty(first.mmsi)),
        ),
        (70_000, heard(third), Ok(distress(third))),
        (130_000, accept(SHIP, 60_000)?, Ok(acknowledged(third)?)),
    ];
    follow(&rt, &mut coast(Band::Mf)?, &rows)
}

#[test]
fn on_vhf_an_alert_is_acknowledged_at_once(rt: HostRuntime) -> Result<(), Fail> {
    let alert = casualty(SHIP, 20, 19)?;
    let other = unplaced(OTHER_SHIP)?;
    let unknown = StationRefusal::NoCasualty(other.mmsi);
    let rows = [
        (0, heard(alert), Ok(distress(alert))),
        (
            5_000,
            CoastWhat::Accept(alert.mmsi, None),
            Ok(acknowledged(alert)?),
        ),
        (6_000, accept(OTHER_SHIP, 60_000)?, Err(unknown)),
        (7_000, heard(other), Ok(distress(other))),
        (8_000, accept(OTHER_SHIP, 60_000)?, Ok(acknowledged(other)?)),
        (59_999, CoastWhat::Tick, Ok(nothing())),
        (60_000, CoastWhat::Tick, Ok(nothing())),
    ];
    follow(&rt, &mut coast(Band::Vhf)?, &rows)
}

#[test]
fn a_casualty_is_told_on_and_closed(rt: HostRuntime) -> Result<(), Fail> {
    let alert = casualty(SHIP, 20, 19)?;
    let own = mmsi(COAST)?;
    let other = mmsi(OTHER_SHIP)?;
    let relay = Call::Relay {
        to: To::All,
        from: own,
        casualty: alert,
        ask: false,
    };
    let acknowledgement = Call::Ack {
        from: mmsi(OTHER_COAST)?,
        casualty: alert,
    };
    let closed = single(Act::CasualtyClosed(alert.mmsi));
    let rows = [
        (0, heard(alert), Ok(distress(alert))),
        (
            6_000,
            CoastWhat::Relay(alert.mmsi, To::All, false),
            Ok(sent(relay)),
        ),
        (
            6_000,
            CoastWhat::Relay(other, To::All, true),
            Err(StationRefusal::NoCasualty(other)),
        ),
        (
            6_000,
            CoastWhat::Accept(alert.mmsi, None),
            Err(StationRefusal::NeedsDelay),
        ),
        (7_000, CoastWhat::Heard(acknowledgement), Ok(closed)),
        (7_000, CoastWhat::Heard(acknowledgement), Ok(nothing())),
        (
            8_000,
            accept(SHIP, 60_000)?,
            Err(StationRefusal::NoCasualty(alert.mmsi)),
        ),
    ];
    follow(&rt, &mut coast(Band::Mf)?, &rows)
}

#[test]
fn services(rt: HostRuntime) -> Result<(), Fail> {
    let test = Kind::Test { reply: false };
    let reply = service(SHIP, COAST, Kind::Test { reply: true })?;
    let rows = [
        (0, service(COAST, SHIP, test)?, sent(reply)),
        (
            1,
            service(COAST, SHIP, Kind::AskPosition)?,
            single(Act::Shown),
        ),
        (2, service(SHIP, COAST, test)?, nothing()),
        (3, service(SHIP, OTHER_SHIP, test)?, nothing()),
    ];
    let rows = rows.map(|(at, call, acts)| (at, CoastWhat::Heard(call), Ok(acts)));
    follow(&rt, &mut coast(Band::Mf)?, &rows)
}

#[test]
fn a_relay_waits_for_its_acknowledgement(rt: HostRuntime) -> Result<(), Fail> {
    let alert = casualty(SHIP, 20, 19)?;
    let own = mmsi(COAST)?;
    let to = To::One(mmsi(OTHER_COAST)?);
    let relay = Call::Relay {
        to,
        from: own,
        casualty: alert,
        ask: true,
    };
    let back = StationRefusal::TimeBack {
        last: 600_002,
        given: 4,
    };
    let rows = [
        (
            0,
            CoastWhat::Send(Call::Alert(alert)),
            Err(StationRefusal::NotSendable),
        ),
        (
            0,
            CoastWhat::Answer(1, true),
            Err(StationRefusal::NoSuchCall(1)),
        ),
        (1, heard(alert), Ok(distress(alert))),
        (
            2,
            CoastWhat::Relay(alert.mmsi, to, true),
            Ok(and(sent(relay), Act::Held(1))),
        ),
        (300_001, CoastWhat::Tick, Ok(nothing())),
        (300_002, CoastWhat::Tick, Ok(sent(relay))),
        (600_002, CoastWhat::Tick, Ok(single(Act::GaveUp(1)))),
        (4, CoastWhat::Tick, Err(back)),
    ];
    follow(&rt, &mut coast(Band::Hf)?, &rows)
}

#[test]
fn sixteen_casualties(rt: HostRuntime) -> Result<(), Fail> {
    let mut coast = coast(Band::Mf)?;
    for number in 1..=16u8 {
        let alert = casualty(u32::from(number), 20, 19)?;
        let event = CoastEvent {
            at: 0,
            what: heard(alert),
        };
        assert_eq!(rt; coast.step(&event), Ok(distress(alert)), "{number}");
    }
    let seventeenth = heard(casualty(17, 20, 19)?);
    let again = casualty(3, 20, 20)?;
    let own = heard(casualty(COAST, 20, 20)?);
    let rows = [
        (0, seventeenth, Err(StationRefusal::Full)),
        (0, heard(again), Ok(distress(again))),
        (0, own, Ok(nothing())),
    ];
    follow(&rt, &mut coast, &rows)
}
