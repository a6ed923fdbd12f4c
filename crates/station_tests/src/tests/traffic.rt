//! Rows of the rules that both kinds of station have.
use crate::tests::worked::{
    Station, and, follow, individual, mmsi, nothing, sent, service, unplaced,
};
use call_values::{Call, End, HourMinute, Kind, Mmsi, Position, To};
use std::test::Fail;
use traffic_rules::*;

const OWN: u32 = 2_241_022;

const SHIP: u32 = 338_158_137;

fn relay(ask: bool) -> Result<Call, Fail> {
    Ok(Call::Relay {
        to: To::All,
        from: mmsi(SHIP)?,
        casualty: unplaced(338_040_079)?,
        ask,
    })
}

/// What happens at a station.
#[derive(Clone, Copy)]
enum Happening {
    Sends(Call),
    Answers(u8, bool),
    Hears(Call),
    Tick,
}

/// The rules of a station at a place with the calls that it holds.
#[derive(Drop)]
struct Rules {
    own: Mmsi,
    place: Option<(Position, HourMinute)>,
    held: HeldCalls,
}

impl Station for Rules {
    type What = Happening;

    fn go(&mut self, at: u64, what: Happening, acts: &mut Acts) -> Result<(), StationRefusal> {
        acts.clear();
        let (held, own) = (&mut self.held, self.own);
        match what {
            Happening::Sends(call) => send(held, own, &call, at, acts),
            Happening::Answers(number, accepts) => answer(held, own, number, accepts, acts),
            Happening::Hears(call) => hear(held, own, self.place, &call, at, acts),
            Happening::Tick => {
                repeat(held, at, acts);
                Ok(())
            }
        }
    }
}

impl Rules {
    /// Those of a station that holds no call.
    fn at(place: Option<(Position, HourMinute)>) -> Result<Rules, Fail> {
        let held = HeldCalls::empty();
        Ok(Rules {
            own: mmsi(OWN)?,
            place,
            held,
        })
    }
}

fn relay_ack(number: u32) -> Result<Call, Fail> {
    Ok(Call::RelayAck {
        to: To::All,
        from: mmsi(9)?,
        casualty: unplaced(number)?,
    })
}

fn test_request() -> Result<Call, Fail> {
    service(2_241_022, 338_040_079, Kind::Test { reply: false })
}

/// The test request as it is held under a number.
fn held(number: u8, side: Side, at: u64, times: u8) -> Result<Held, Fail> {
    Ok(Held {
        number,
        call: test_request()?,
        side,
        at,
        times,
    })
}

#[test]
fn equal_calls(rt: HostRuntime) -> Result<(), Fail> {
    let call = individual(OWN, SHIP, 126, End::Ask)?;
    let rows = [
        (call, true),
        (individual(OWN, SHIP, 126, End::Plain)?, false),
        (individual(OWN, SHIP, 110, End::Ask)?, false),
        (individual(SHIP, OWN, 126, End::Ask)?, false),
        (relay(true)?, false),
    ];
    for (other, want) in rows {
        assert_eq!(rt; are_equal(&call, &other), want);
    }
    Ok(())
}

#[test]
fn questions_are_held_once(rt: HostRuntime) -> Result<(), Fail> {
    let call = individual(OWN, SHIP, 126, End::Ask)?;
    let other = individual(OWN, SHIP, 110, End::Ask)?;
    let reply = individual(SHIP, OWN, 126, End::Reply)?;
    let unknown = StationRefusal::NoSuchCall(1);
    let rows = [
        (5, Happening::Hears(call), Ok(single(Act::Held(1)))),
        (6, Happening::Hears(call), Ok(nothing())),
        (6, Happening::Hears(other), Ok(single(Act::Held(2)))),
        (6, Happening::Answers(1, true), Ok(sent(reply))),
        (6, Happening::Answers(1, true), Err(unknown)),
        (7, Happening::Hears(call), Ok(single(Act::Held(1)))),
    ];
    follow(&rt, &mut Rules::at(None)?, &rows)
}

#[test]
fn relays_are_told_and_held(rt: HostRuntime) -> Result<(), Fail> {
    let (tells, asks) = (relay(false)?, relay(true)?);
    let test = service(SHIP, OWN, Kind::Test { reply: false })?;
    let distress = Act::Distress(unplaced(338_040_079)?);
    let mut rules = Rules::at(None)?;
    let rows = [
        (1, Happening::Hears(tells), Ok(single(distress))),
        (
            2,
            Happening::Hears(asks),
            Ok(and(single(distress), Act::Held(1))),
        ),
        (3, Happening::Hears(asks), Ok(single(distress))),
        (3, Happening::Answers(1, false), Ok(nothing())),
    ];
    follow(&rt, &mut rules, &rows)?;
    for number in 1..=16 {
        let held = and(sent(test), Act::Held(number));
        follow(&rt, &mut rules, &[(4, Happening::Sends(test), Ok(held))])?;
    }
    let full = Err(StationRefusal::Full);
    follow(&rt, &mut rules, &[(5, Happening::Hears(asks), full)])
}

#[test]
fn sent_calls_wait_twice(rt: HostRuntime) -> Result<(), Fail> {
    let ask = service(SHIP, OWN, Kind::AskPosition)?;
    let test = service(SHIP, OWN, Kind::Test { reply: false })?;
    let answered = service(OWN, SHIP, Kind::Test { reply: true })?;
    let unknown = Kind::Position(Position::unknown(), HourMinute::unknown());
    let position = service(OWN, SHIP, unknown)?;
    let rows = [
        (0, Happening::Sends(ask), Ok(and(sent(ask), Act::Held(1)))),
        (
            10,
            Happening::Sends(test),
            Ok(and(sent(test), Act::Held(2))),
        ),
        (299_999, Happening::Tick, Ok(nothing())),
        (300_005, Happening::Tick, Ok(sent(ask))),
        (300_010, Happening::Tick, Ok(sent(test))),
        (600_004, Happening::Tick, Ok(nothing())),
        (600_005, Happening::Tick, Ok(single(Act::GaveUp(1)))),
        (600_006, Happening::Hears(position), Ok(single(Act::Shown))),
        (
            600_006,
            Happening::Hears(answered),
            Ok(single(Act::Answered(2))),
        ),
        (600_007, Happening::Hears(answered), Ok(single(Act::Shown))),
    ];
    follow(&rt, &mut Rules::at(None)?, &rows)
}

#[test]
fn answers_at_once(rt: HostRuntime) -> Result<(), Fail> {
    let ask = service(OWN, SHIP, Kind::AskPosition)?;
    let test = service(OWN, SHIP, Kind::Test { reply: false })?;
    let reply = service(SHIP, OWN, Kind::Test { reply: true })?;
    let place = (Position::unknown(), HourMinute::unknown());
    let answer = service(SHIP, OWN, Kind::Position(place.0, place.1))?;
    let unplaced = [
        (1, Happening::Hears(ask), Ok(single(Act::Shown))),
        (1, Happening::Hears(test), Ok(sent(reply))),
    ];
    follow(&rt, &mut Rules::at(None)?, &unplaced)?;
    let placed = [(1, Happening::Hears(ask), Ok(sent(answer)))];
    follow(&rt, &mut Rules::at(Some(place))?, &placed)
}

#[test]
fn waits(rt: HostRuntime) {
    let rows = [
        (5, 3, 8, true),
        (5, 3, 7, false),
        (0, 9, 3, true),
        (1, 9, 3, false),
    ];
    for (wait, from, to, want) in rows {
        assert_eq!(rt;
            has_passed(wait, from, to),
            want,
            "{wait} from {from} to {to}"
        );
    }
}

#[test]
fn moments_that_go_back(rt: HostRuntime) {
    assert_eq!(rt; time_back(5, 5), None);
    let back = StationRefusal::TimeBack { last: 5, given: 4 };
    assert_eq!(rt; time_back(5, 4), Some(back));
}

#[test]
fn senders(rt: HostRuntime) -> Result<(), Fail> {
    let rows = [
        (Call::Alert(unplaced(338_040_079)?), 338_040_079),
        (relay_ack(338_040_079)?, 9),
        (individual(2, 1, 126, End::Ask)?, 1),
        (test_request()?, 338_040_079),
    ];
    for (call, want) in rows {
        assert_eq!(rt; call.sender().number(), want, "{call:?}");
    }
    Ok(())
}

#[test]
fn answers_to_calls(rt: HostRuntime) -> Result<(), Fail> {
    let relay = Call::Relay {
        to: To::All,
        from: mmsi(1)?,
        casualty: unplaced(3)?,
        ask: true,
    };
    let ask = individual(2, 1, 126, End::Ask)?;
    let test = Kind::Test { reply: false };
    let tested = Kind::Test { reply: true };
    let place = Kind::Position(Position::unknown(), HourMinute::unknown());
    let where_is = service(2, 1, Kind::AskPosition)?;
    let rows = [
        (relay, relay_ack(3)?, true),
        (relay, relay_ack(4)?, false),
        (ask, individual(1, 2, 126, End::Reply)?, true),
        (ask, individual(1, 2, 126, End::Plain)?, false),
        (ask, individual(1, 3, 126, End::Reply)?, false),
        (service(2, 1, test)?, service(1, 2, tested)?, true),
        (service(2, 1, tested)?, service(1, 2, tested)?, false),
        (where_is, service(1, 2, place)?, true),
        (where_is, service(1, 2, tested)?, false),
    ];
    for (sent, heard, want) in rows {
        assert_eq!(rt; answers(&sent, &heard), want, "{heard:?} to {sent:?}");
    }
    Ok(())
}

#[test]
fn held_calls(rt: HostRuntime) -> Result<(), Fail> {
    let mut calls = HeldCalls::empty();
    for number in 1..17 {
        assert_eq!(rt; calls.hold(test_request()?, Side::Sent, 5), Some(number));
    }
    assert_eq!(rt; calls.hold(test_request()?, Side::Got, 6), None);
    assert_eq!(rt; calls.find(7), Some(held(7, Side::Sent, 5, 1)?));
    assert_eq!(rt; calls.release(7), Some(held(7, Side::Sent, 5, 1)?));
    assert_eq!(rt; calls.release(7), None);
    assert_eq!(rt; calls.release(0), None);
    assert_eq!(rt; calls.find(17), None);
    assert_eq!(rt; calls.hold(test_request()?, Side::Got, 9), Some(7));
    assert_eq!(rt; calls.find(7), Some(held(7, Side::Got, 9, 0)?));
    Ok(())
}

#[test]
fn a_call_that_is_sent_again(rt: HostRuntime) -> Result<(), Fail> {
    let mut calls = HeldCalls::empty();
    let _ = calls.hold(test_request()?, Side::Sent, 5);
    calls.sent_again(1, 300_005);
    assert_eq!(rt; calls.find(1), Some(held(1, Side::Sent, 300_005, 2)?));
    Ok(())
}
