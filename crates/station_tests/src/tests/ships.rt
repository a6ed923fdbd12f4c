//! Rows of events at a ship.
use crate::tests::worked::{
    Station, and, casualty, follow, mmsi, nothing, proposal, sent, service, unplaced,
};
use call_values::{AlertDelay, Area, Call, Casualty, End, HourMinute, Kind, To};
use ship_station::*;
use std::test::Fail;
use traffic_rules::{Act, Acts, StationRefusal, single};

const OWN: u32 = 338_040_079;

const OTHER: u32 = 338_158_137;

const COAST: u32 = 2_241_022;

fn ship(number: u32) -> Result<Ship, Fail> {
    Ok(Ship::new(mmsi(number)?, &[]))
}

impl Station for Ship {
    type What = ShipWhat;

    fn go(&mut self, at: u64, what: ShipWhat, acts: &mut Acts) -> Result<(), StationRefusal> {
        self.step_into(&ShipEvent { at, what }, acts)
    }
}

fn delay(milliseconds: u32) -> Result<ShipWhat, Fail> {
    Ok(ShipWhat::Delay(AlertDelay::new(milliseconds).ok_or("delay")?))
}

fn acknowledged(casualty: Casualty) -> Result<ShipWhat, Fail> {
    let from = mmsi(COAST)?;
    Ok(ShipWhat::Heard(Call::Ack { from, casualty }))
}

fn attempt(casualty: Casualty) -> Acts {
    single(Act::Send {
        call: Call::Alert(casualty),
        times: 5,
    })
}

#[test]
fn an_alert_until_its_acknowledgement(rt: HostRuntime) -> Result<(), Fail> {
    let own = casualty(OWN, 20, 19)?;
    let rows = [
        (0, ShipWhat::Position(own.position, own.time), Ok(nothing())),
        (0, delay(210_000)?, Ok(nothing())),
        (0, ShipWhat::Alert(own.nature, own.comm), Ok(attempt(own))),
        (209_999, ShipWhat::Tick, Ok(nothing())),
        (210_000, ShipWhat::Tick, Ok(attempt(own))),
        (
            220_000,
            acknowledged(casualty(OTHER, 20, 19)?)?,
            Ok(nothing()),
        ),
        (221_000, acknowledged(own)?, Ok(single(Act::AlertEnded))),
        (222_000, acknowledged(own)?, Ok(nothing())),
        (430_000, ShipWhat::Tick, Ok(nothing())),
    ];
    follow(&rt, &mut ship(OWN)?, &rows)
}

#[test]
fn refusals_leave_the_ship(rt: HostRuntime) -> Result<(), Fail> {
    let own = casualty(OWN, 20, 19)?;
    let alert = ShipWhat::Alert(own.nature, own.comm);
    let back = StationRefusal::TimeBack { last: 5, given: 4 };
    let rows = [
        (5, ShipWhat::Cancel, Err(StationRefusal::NoAlert)),
        (4, ShipWhat::Tick, Ok(nothing())),
        (5, alert, Err(StationRefusal::NeedsDelay)),
        (4, delay(210_000)?, Ok(nothing())),
        (5, alert, Ok(attempt(unplaced(OWN)?))),
        (4, ShipWhat::Tick, Err(back)),
        (4, alert, Err(back)),
        (5, alert, Err(StationRefusal::AlertActive)),
        (6, ShipWhat::Position(own.position, own.time), Ok(nothing())),
        (210_005, ShipWhat::Tick, Ok(attempt(own))),
        (500_000, ShipWhat::Tick, Err(StationRefusal::NeedsDelay)),
        (210_006, alert, Err(StationRefusal::AlertActive)),
        (210_006, ShipWhat::Cancel, Ok(single(Act::AlertEnded))),
        (210_006, ShipWhat::Tick, Ok(nothing())),
        (210_006, ShipWhat::Cancel, Err(StationRefusal::NoAlert)),
    ];
    follow(&rt, &mut ship(OWN)?, &rows)
}

#[test]
fn sixteen_delays(rt: HostRuntime) -> Result<(), Fail> {
    let mut ship = ship(OTHER)?;
    let event = ShipEvent {
        at: 0,
        what: delay(210_000)?,
    };
    for _ in 0..16 {
        assert_eq!(rt; ship.step(&event), Ok(nothing()));
    }
    assert_eq!(rt; ship.step(&event), Err(StationRefusal::Full));
    Ok(())
}

#[test]
fn heard_calls(rt: HostRuntime) -> Result<(), Fail> {
    let other = casualty(OWN, 20, 19)?;
    let test = service(OTHER, OWN, Kind::Test { reply: false })?;
    let reply = service(OWN, OTHER, Kind::Test { reply: true })?;
    let rows = [
        (
            7,
            ShipWhat::Heard(Call::Alert(other)),
            Ok(single(Act::Distress(other))),
        ),
        (
            8,
            ShipWhat::Heard(Call::Alert(casualty(OTHER, 20, 19)?)),
            Ok(nothing()),
        ),
        (8, ShipWhat::Heard(test), Ok(sent(reply))),
    ];
    let mut ship = Ship::new(mmsi(OTHER)?, &[other.mmsi; 16]);
    follow(&rt, &mut ship, &rows)
}

#[test]
fn calls_for_the_ship_are_answered(rt: HostRuntime) -> Result<(), Fail> {
    let position = casualty(OWN, 20, 19)?.position;
    let unknown = HourMinute::unknown();
    let ask = service(OTHER, COAST, Kind::AskPosition)?;
    let told = service(COAST, OTHER, Kind::Position(position, unknown))?;
    let test = service(OWN, COAST, Kind::Test { reply: false })?;
    let question = proposal(OTHER, COAST, 109, 126, End::Ask)?;
    let refusal = proposal(COAST, OTHER, 104, 100, End::Reply)?;
    let rows = [
        (0, ShipWhat::Position(position, unknown), Ok(nothing())),
        (1_000, ShipWhat::Heard(ask), Ok(sent(told))),
        (1_500, ShipWhat::Heard(test), Ok(nothing())),
        (2_000, ShipWhat::Heard(question), Ok(single(Act::Held(1)))),
        (2_500, ShipWhat::Heard(question), Ok(nothing())),
        (
            2_600,
            ShipWhat::Answer(2, false),
            Err(StationRefusal::NoSuchCall(2)),
        ),
        (3_000, ShipWhat::Answer(1, false), Ok(sent(refusal))),
        (
            3_000,
            ShipWhat::Answer(1, false),
            Err(StationRefusal::NoSuchCall(1)),
        ),
    ];
    follow(&rt, &mut ship(OTHER)?, &rows)
}

#[test]
fn sent_calls_are_repeated_once(rt: HostRuntime) -> Result<(), Fail> {
    let call = proposal(COAST, OWN, 109, 126, End::Ask)?;
    let reply = proposal(OWN, COAST, 109, 126, End::Reply)?;
    let alert = Call::Alert(casualty(OWN, 20, 19)?);
    let rows = [
        (0, ShipWhat::Send(alert), Err(StationRefusal::NotSendable)),
        (0, ShipWhat::Send(reply), Err(StationRefusal::NotSendable)),
        (0, ShipWhat::Send(call), Ok(and(sent(call), Act::Held(1)))),
        (299_999, ShipWhat::Tick, Ok(nothing())),
        (300_000, ShipWhat::Tick, Ok(sent(call))),
        (
            300_001,
            ShipWhat::Answer(1, true),
            Err(StationRefusal::NoSuchCall(1)),
        ),
        (599_999, ShipWhat::Tick, Ok(nothing())),
        (600_000, ShipWhat::Tick, Ok(single(Act::GaveUp(1)))),
        (600_001, ShipWhat::Heard(reply), Ok(single(Act::Shown))),
        (
            600_002,
            ShipWhat::Send(call),
            Ok(and(sent(call), Act::Held(1))),
        ),
        (
            600_003,
            ShipWhat::Heard(reply),
            Ok(single(Act::Answered(1))),
        ),
        (900_003, ShipWhat::Tick, Ok(nothing())),
    ];
    follow(&rt, &mut ship(OWN)?, &rows)
}

#[test]
fn a_full_ship_refuses_a_relay_in_whole(rt: HostRuntime) -> Result<(), Fail> {
    let test = service(COAST, OWN, Kind::Test { reply: false })?;
    let relay = |to, ask| -> Result<ShipWhat, Fail> {
        Ok(ShipWhat::Heard(Call::Relay {
            to,
            from: mmsi(COAST)?,
            casualty: casualty(OTHER, 20, 19)?,
            ask,
        }))
    };
    let mut ship = ship(OWN)?;
    for number in 1..=16 {
        let event = ShipEvent {
            at: 5,
            what: ShipWhat::Send(test),
        };
        assert_eq!(rt; ship.step(&event), Ok(and(sent(test), Act::Held(number))));
    }
    let distress = single(Act::Distress(casualty(OTHER, 20, 19)?));
    let south = Area::new(1, 42, 84, 2, 2).ok_or("area")?;
    let rows = [
        (9, relay(To::All, true)?, Err(StationRefusal::Full)),
        (6, ShipWhat::Send(test), Err(StationRefusal::Full)),
        (6, relay(To::All, false)?, Ok(distress)),
        (
            6,
            relay(To::Area(south), false)?,
            Ok(single(Act::Distress(casualty(OTHER, 20, 19)?))),
        ),
        (
            6,
            ShipWhat::Position(casualty(OWN, 20, 19)?.position, HourMinute::unknown()),
            Ok(nothing()),
        ),
        (6, relay(To::Area(south), false)?, Ok(nothing())),
    ];
    follow(&rt, &mut ship, &rows)
}
