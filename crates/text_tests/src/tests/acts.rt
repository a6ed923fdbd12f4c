//! Lines of acts and refusals.
use crate::tests::calls::call_of;
use arrayvec::ArrayVec;
use call_values::{Call, Mmsi};
use station_lines::*;
use std::test::Fail;
use traffic_rules::{Act, StationRefusal};

const ADRIFT: &str = "alert from=338040079 nature=106 pos=1423108312 time=2019 then=100";

/// A flooding ship that doesn't know its position or the time, with an identity that begins with zeros.
const FLOODING: &str = "alert from=000000009 nature=101 pos=9999999999 time=8888 then=113";

const ACK: &str =
    "ack from=002241022 casualty=338040079 nature=106 pos=1423108312 time=2019 then=100";

const RELAY: &str =
    "relay to=area:2050010109 from=002241022 casualty=338040079 nature=106 pos=1423108312 time=2019 then=100 end=117";

fn send(times: u8, text: &str) -> Result<Act, Fail> {
    let call = call_of(text)?;
    Ok(Act::Send { call, times })
}

/// The ship that this alert is about.
fn distress(alert: &str) -> Result<Act, Fail> {
    match call_of(alert)? {
        Call::Alert(casualty) => Ok(Act::Distress(casualty)),
        _ => Err("an alert")?,
    }
}

fn ship(number: u32) -> Result<Mmsi, Fail> {
    Ok(Mmsi::new(number).ok_or("identity")?)
}

#[test]
fn lines_of_acts(rt: HostRuntime) -> Result<(), Fail> {
    let rows = [
        (
            210_000,
            send(5, ADRIFT)?,
            "210000 send 5 alert from=338040079 nature=106 pos=1423108312 time=2019 then=100",
        ),
        (
            60_000,
            send(1, ACK)?,
            "60000 send 1 ack from=002241022 casualty=338040079 nature=106 pos=1423108312 time=2019 then=100",
        ),
        (
            u32::MAX,
            send(255, RELAY)?,
            "4294967295 send 255 relay to=area:2050010109 from=002241022 casualty=338040079 nature=106 pos=1423108312 time=2019 then=100 end=117",
        ),
        (7, Act::Shown, "7 shown"),
        (0, Act::Held(1), "0 held 1"),
        (300_001, Act::Answered(16), "300001 answered 16"),
        (600_000, Act::GaveUp(10), "600000 gaveup 10"),
        (
            0,
            distress(ADRIFT)?,
            "0 distress casualty=338040079 nature=106 pos=1423108312 time=2019 then=100",
        ),
        (
            8,
            distress(FLOODING)?,
            "8 distress casualty=000000009 nature=101 pos=9999999999 time=8888 then=113",
        ),
        (221_000, Act::AlertEnded, "221000 ended"),
        (
            7_000,
            Act::CasualtyClosed(ship(2_241_022)?),
            "7000 closed 002241022",
        ),
    ];
    for (at, act, text) in &rows {
        let mut line: ArrayVec<u8, 160> = ArrayVec::new();
        append_act_text(&mut line, *at, act);
        assert_eq!(rt; line.as_slice(), text.as_bytes(), "{text}");
        assert_eq!(rt; put_act(*at, act).as_slice(), text.as_bytes(), "{text}");
    }
    Ok(())
}

#[test]
fn lines_of_refusals(rt: HostRuntime) -> Result<(), Fail> {
    let back = StationRefusal::TimeBack {
        last: u64::MAX,
        given: 0,
    };
    let rows = [
        (1, StationRefusal::AlertActive, "1 refused alertactive"),
        (5, StationRefusal::NoAlert, "5 refused noalert"),
        (5, StationRefusal::NoSuchCall(3), "5 refused nosuchcall 3"),
        (0, StationRefusal::Full, "0 refused full"),
        (0, StationRefusal::NeedsDelay, "0 refused needsdelay"),
        (0, StationRefusal::NotSendable, "0 refused notsendable"),
        (
            6_000,
            StationRefusal::NoCasualty(ship(338_158_137)?),
            "6000 refused nocasualty 338158137",
        ),
        (
            4,
            StationRefusal::TimeBack { last: 5, given: 4 },
            "4 refused timeback 5 4",
        ),
        (
            u32::MAX,
            back,
            "4294967295 refused timeback 18446744073709551615 0",
        ),
    ];
    for (at, refusal, text) in &rows {
        let mut line: ArrayVec<u8, 80> = ArrayVec::new();
        append_refusal_text(&mut line, *at, refusal);
        assert_eq!(rt; line.as_slice(), text.as_bytes(), "{text}");
        assert_eq!(rt;
            put_refused(*at, refusal).as_slice(),
            text.as_bytes(),
            "{text}"
        );
    }
    Ok(())
}
