//! Lines of traffic files, and their columns.
use crate::tests::calls::call_of;
use call_values::worked::FIX;
use call_values::{AlertDelay, Area, Band, CoastDelay, Comm, Mmsi, Nature, Position, To};
use dsc_files::{EventLine, Line, read_traffic};
use std::test::Fail;
use traffic_lines::{Point, TrafficLine};

// Points, and lines that aren't of these points, with the column at which each is ill-formed.
const COLUMNS: [(Point, &[(&str, usize)]); 8] = [
    (
        Point::Station,
        &[
            ("", 1),
            ("base 0", 1),
            ("0 tick", 1),
            ("station", 8),
            ("station x", 9),
            ("station ship  ", 14),
            ("station ship 33815813", 22),
            ("station ship 3381581370", 23),
            ("station ship 338158137 ", 23),
            ("station c", 10),
            ("station cost 002241022 mf", 11),
            ("station coast 02241022 mf", 23),
            ("station coast 002241022", 24),
            ("station coast 002241022 ", 25),
            ("station coast 002241022 uhf", 25),
            ("station coast 002241022 m", 26),
            ("station coast 002241022 vf", 26),
            ("station coast 002241022 mff", 27),
            ("station coast 002241022 mf ", 27),
        ],
    ),
    (
        Point::Base,
        &[
            ("station ship 338158137", 1),
            ("0 tick", 1),
            ("base", 5),
            ("base ", 6),
            ("base -1", 6),
            ("base 00", 7),
            ("base 5 ", 7),
            ("base 10000000000", 16),
        ],
    ),
    (
        Point::Groups { held: 0 },
        &[("base 0", 1), ("x", 1), ("groups", 6), ("0 ticks", 7)],
    ),
    (
        Point::Groups { held: 15 },
        &[("group 33815813", 15), ("group 338158137 ", 16)],
    ),
    (Point::Groups { held: 16 }, &[("group 338158137", 1)]),
    (Point::Groups { held: 255 }, &[("group 338158137", 1)]),
    (
        Point::Ship,
        &[
            ("group 338158137", 1),
            ("", 1),
            (" 0 tick", 1),
            ("5", 2),
            ("5 ", 3),
            ("5  tick", 3),
            ("00 tick", 2),
            ("4294967296 tick", 10),
            ("42949672950 tick", 11),
        ],
    ),
    (
        Point::Coast,
        &[("", 1), ("base 0", 1), ("group 338158137", 1)],
    ),
];

// What isn't an event of a ship after the moment 5, and the column of the line.
const SHIP_EVENTS: [(&str, usize); 32] = [
    ("5 a", 4),
    ("5 cancel\r", 9),
    ("5 relay 338040079 to=all ask", 3),
    ("5 accept 002241022", 4),
    ("5 delay", 8),
    ("5 delay 0", 9),
    ("5 delay 20", 10),
    ("5 delay 28", 10),
    ("5 delay 271", 11),
    ("5 delay 270001", 14),
    ("5 delay 21000", 14),
    ("5 delay 2100000", 15),
    ("5 delay 210000 ", 15),
    ("5 alert then=100", 9),
    ("5 alert nature=111 then=100", 18),
    ("5 alert nature=106", 19),
    ("5 alert nature=106 then=10", 27),
    ("5 alert nature=106 then=105", 27),
    ("5 alert nature=106 then=100 ", 28),
    ("5 alert from=338158137", 9),
    ("5 position", 11),
    ("5 position ", 12),
    ("5 position 4", 12),
    ("5 position 90", 13),
    ("5 position 191", 14),
    ("5 position 19001", 16),
    ("5 position 1426", 15),
    ("5 position 1423", 16),
    ("5 position 14231181", 19),
    ("5 position 1423118001", 21),
    ("5 position 14231083120", 22),
    ("5 position 999999999", 21),
];

// What isn't an event of a coast station after the moment 5, and the column of the line.
const COAST_EVENTS: [(&str, usize); 38] = [
    ("5 position 1423108312", 3),
    ("5 delay 210000", 5),
    ("5 alert nature=106 then=100", 4),
    ("5 cancel", 3),
    ("5 a", 4),
    ("5 accept", 9),
    ("5 accepts", 9),
    ("5 accept ", 10),
    ("5 accept 33804007", 18),
    ("5 accept 3380400791", 19),
    ("5 accept 338040079 ", 20),
    ("5 accept 338040079  ", 20),
    ("5 accept 338040079 0", 20),
    ("5 accept 338040079 5", 20),
    ("5 accept 338040079 59999", 20),
    ("5 accept 338040079 6", 21),
    ("5 accept 338040079 17", 21),
    ("5 accept 338040079 166", 22),
    ("5 accept 338040079 60000 ", 25),
    ("5 accept 338040079 600000", 25),
    ("5 accept 338040079 165001", 25),
    ("5 relay", 8),
    ("5 relay all", 9),
    ("5 relay 338040079", 18),
    ("5 relay 338040079 ", 19),
    ("5 relay 338040079 ask", 19),
    ("5 relay 338040079 to=al ask", 24),
    ("5 relay 338040079 to=all", 25),
    ("5 relay 338040079 to=all ", 26),
    ("5 relay 338040079 to=all no", 26),
    ("5 relay 338040079 to=all as", 28),
    ("5 relay 338040079 to=all asks", 29),
    ("5 relay 338040079 to=all tells", 30),
    ("5 relay 338040079 to=area:1910840202 ask", 29),
    ("5 relay 338040079 to=area:143084020 ask", 36),
    ("5 relay 338040079 to=group:338040079", 37),
    ("5 relay 338040079 to=one:33804007 tell", 34),
    ("5 relayack to=all", 8),
];

// What is no event of either after the moment 5, and the column of the line.
const OTHER_EVENTS: [(&str, usize); 41] = [
    ("5 Tick", 3),
    ("5 tic", 6),
    ("5 tick ", 7),
    ("5 ticks", 7),
    ("5 s", 4),
    ("5 sent", 6),
    ("5 send", 7),
    ("5 send ", 8),
    ("5 send  ", 8),
    ("5 send test", 12),
    ("5 send alert from=338158137 nature=111", 38),
    ("5 send askpos to=002241022 cat=100 from=338158137 ", 50),
    ("5 send askpos to=002241022 cat=100 from=338158137 exp", 50),
    (
        "5 send askpos to=002241022 cat=100 from=338158137 exp speed=0125",
        50,
    ),
    ("5 answer", 9),
    ("5 answers 1", 9),
    ("5 answer ", 10),
    ("5 answer 0", 10),
    ("5 answer 01", 10),
    ("5 answer 17", 11),
    ("5 answer 20", 11),
    ("5 answer 2 ", 11),
    ("5 answer 161", 12),
    ("5 declin", 9),
    ("5 decline 0", 11),
    ("5 decline 17", 12),
    ("5 decline 16 ", 13),
    ("5 hea", 6),
    ("5 hear", 7),
    ("5 hears", 7),
    ("5 hear ", 8),
    ("5 hear  ", 8),
    ("5 hear heard", 8),
    ("5 hear ask", 11),
    ("5 hear askpos to=002241022 cat=106", 34),
    ("5 hear askpos to=002241022 cat=100 from=338158137 exp", 54),
    ("5 heard ", 9),
    ("5 heard 1", 9),
    ("5 heard g07", 11),
    ("5 heard g1 ", 11),
    ("5 heard g4294967296", 19),
];

// Lines of files of stations, and the points at which they come there.
const LINES: [(Point, &str); 19] = [
    (Point::Station, "station ship 338040079"),
    (Point::Base, "base 1714594740"),
    (Point::Groups { held: 0 }, "0 position 1423108312"),
    (Point::Ship, "0 delay 210000"),
    (Point::Ship, "5 alert nature=106 then=100"),
    (Point::Ship, "5 answer 3"),
    (Point::Ship, "3000 decline 1"),
    (
        Point::Ship,
        "0 send one to=002241022 cat=100 from=338040079 first=109 second=126 f1=021820 f2=021820 end=117",
    ),
    (
        Point::Ship,
        "1000 hear askpos to=338158137 cat=100 from=002241022",
    ),
    (Point::Station, "station coast 002241022 mf"),
    (Point::Station, "station coast 002241022 hf"),
    (Point::Station, "station coast 002241022 vhf"),
    (
        Point::Coast,
        "0 hear alert from=338040079 nature=106 pos=1423108312 time=2019 then=100",
    ),
    (Point::Coast, "5000 accept 338040079 60000"),
    (Point::Coast, "5000 accept 338040079"),
    (Point::Coast, "59999 tick"),
    (
        Point::Coast,
        "0 hear test to=002241022 cat=108 from=338040079 end=117",
    ),
    (Point::Coast, "6000 relay 338040079 to=all tell"),
    (Point::Coast, "7 heard g0"),
];

#[test]
fn ill_formed_lines_have_columns(rt: HostRuntime) {
    for (point, lines) in COLUMNS {
        for (text, column) in lines {
            assert_eq!(rt;
                read_traffic(point, text.as_bytes()),
                Err(*column),
                "{text}"
            );
        }
    }
}

/// Whether a line has this column at each of these points.
fn is_ill_formed(points: &[Point], text: &str, column: usize) -> bool {
    points.iter().all(|point| read_traffic(*point, text.as_bytes()) == Err(column))
}

#[test]
fn ill_formed_events_have_columns(rt: HostRuntime) {
    let ship = [Point::Ship, Point::Groups { held: 3 }];
    let both = [Point::Ship, Point::Groups { held: 3 }, Point::Coast];
    for (text, column) in SHIP_EVENTS {
        assert!(rt; is_ill_formed(&ship, text, column), "{text}");
    }
    for (text, column) in COAST_EVENTS {
        assert!(rt; is_ill_formed(&[Point::Coast], text, column), "{text}");
    }
    for (text, column) in OTHER_EVENTS {
        assert!(rt; is_ill_formed(&both, text, column), "{text}");
    }
}

#[test]
fn lines_of_stations_are_well_formed(rt: HostRuntime) {
    for (point, text) in LINES {
        assert!(rt; read_traffic(point, text.as_bytes()).is_ok(), "{text}");
    }
}

#[test]
fn openings_are_read(rt: HostRuntime) -> Result<(), Fail> {
    let mmsi = Mmsi::new(7).ok_or("an identity")?;
    let groups = Point::Groups { held: 15 };
    for (point, text, line) in [
        (
            Point::Station,
            "station ship 000000007",
            TrafficLine::Ship(mmsi),
        ),
        (
            Point::Station,
            "station coast 000000007 mf",
            TrafficLine::Coast(mmsi, Band::Mf),
        ),
        (
            Point::Station,
            "station coast 000000007 hf",
            TrafficLine::Coast(mmsi, Band::Hf),
        ),
        (
            Point::Station,
            "station coast 000000007 vhf",
            TrafficLine::Coast(mmsi, Band::Vhf),
        ),
        (Point::Base, "base 0", TrafficLine::Base(0)),
        (
            Point::Base,
            "base 9999999999",
            TrafficLine::Base(9_999_999_999),
        ),
        (groups, "group 000000007", TrafficLine::Group(mmsi)),
    ] {
        assert_eq!(rt; read_traffic(point, text.as_bytes()), Ok(line), "{text}");
    }
    Ok(())
}

/// The moment and the event that a line says at this point.
fn event_at(point: Point, text: &[u8]) -> Option<(u32, EventLine)> {
    let Ok(said) = read_traffic(point, text) else {
        return None;
    };
    let line = Line::from(said);
    match &line {
        Line::Event { at, what } => Some((*at, *what)),
        _ => None,
    }
}

/// Whether this event of a ship is read of its line, wherever events of ships may come.
fn is_read(text: &[u8], at: u32, what: &EventLine) -> bool {
    let line = Some((at, *what));
    event_at(Point::Ship, text) == line && event_at(Point::Groups { held: 16 }, text) == line
}

/// Whether this event is read of its line in the file of a coast station.
fn is_read_ashore(text: &[u8], at: u32, what: &EventLine) -> bool {
    event_at(Point::Coast, text) == Some((at, *what))
}

#[test]
fn events_are_read(rt: HostRuntime) {
    let delay = AlertDelay::new(210_000).expect(&rt, "a delay");
    let nature = Nature::new(106).expect(&rt, "a nature");
    let comm = Comm::new(100).expect(&rt, "a communication");
    assert!(rt; is_read(b"0 cancel", 0, &EventLine::Cancel));
    assert!(rt; is_read(b"4294967295 tick", 4_294_967_295, &EventLine::Tick));
    assert!(rt; is_read(b"1 delay 210000", 1, &EventLine::Delay(delay)));
    assert!(rt;
        is_read(
            b"20 alert nature=106 then=100",
            20,
            &EventLine::Alert(nature, comm)
        )
    );
    assert!(rt; is_read(b"7 heard g0", 7, &EventLine::Heard(0)));
    assert!(rt; is_read(b"7 heard g4294967295", 7, &EventLine::Heard(4_294_967_295)));
}

#[test]
fn positions_are_read(rt: HostRuntime) {
    let unknown = EventLine::Position(Position::unknown());
    let known = EventLine::Position(Position::new(FIX).expect(&rt, "a position"));
    assert!(rt; is_read(b"0 position 9999999999", 0, &unknown));
    assert!(rt; is_read(b"0 position 1423108312", 0, &known));
}

#[test]
fn an_expansion_behind_a_call_says_nothing(rt: HostRuntime) -> Result<(), Fail> {
    let heard = EventLine::Hear(call_of("askpos to=002241022 cat=100 from=338158137")?);
    let alone = b"3 hear askpos to=002241022 cat=100 from=338158137";
    let longer = b"3 hear askpos to=002241022 cat=100 from=338158137 exp speed=0125";
    assert!(rt; is_read(alone, 3, &heard));
    assert!(rt; is_read(longer, 3, &heard));
    Ok(())
}

#[test]
fn held_calls_are_answered_and_declined(rt: HostRuntime) {
    for (text, number, accepts) in [
        ("8 answer 1", 1, true),
        ("8 answer 16", 16, true),
        ("8 decline 1", 1, false),
        ("8 decline 16", 16, false),
    ] {
        let what = EventLine::Answer(number, accepts);
        assert!(rt; is_read(text.as_bytes(), 8, &what), "{text}");
        assert!(rt; is_read_ashore(text.as_bytes(), 8, &what), "{text}");
    }
}

#[test]
fn calls_are_sent(rt: HostRuntime) -> Result<(), Fail> {
    let sent = EventLine::Send(call_of("test to=338040079 cat=108 from=002241022 end=117")?);
    let text = b"3 send test to=338040079 cat=108 from=002241022 end=117";
    assert!(rt; is_read(text, 3, &sent));
    assert!(rt; is_read_ashore(text, 3, &sent));
    Ok(())
}

#[test]
fn alerts_are_accepted(rt: HostRuntime) -> Result<(), Fail> {
    let ship = Mmsi::new(338_040_079).ok_or("an identity")?;
    let least = CoastDelay::new(60_000).ok_or("a delay")?;
    let most = CoastDelay::new(165_000).ok_or("a delay")?;
    for (text, delay) in [
        ("9 accept 338040079", None),
        ("9 accept 338040079 60000", Some(least)),
        ("9 accept 338040079 165000", Some(most)),
    ] {
        let what = EventLine::Accept(ship, delay);
        assert!(rt; is_read_ashore(text.as_bytes(), 9, &what), "{text}");
    }
    Ok(())
}

#[test]
fn alerts_are_relayed(rt: HostRuntime) -> Result<(), Fail> {
    let ship = Mmsi::new(338_040_079).ok_or("an identity")?;
    let group = Mmsi::new(23_200_001).ok_or("an identity")?;
    let area = Area::new(1, 43, 84, 2, 2).ok_or("an area")?;
    for (text, to, ask) in [
        ("9 relay 338040079 to=all ask", To::All, true),
        ("9 relay 338040079 to=all tell", To::All, false),
        (
            "9 relay 338040079 to=area:1430840202 tell",
            To::Area(area),
            false,
        ),
        (
            "9 relay 338040079 to=group:023200001 ask",
            To::Group(group),
            true,
        ),
        (
            "9 relay 338040079 to=one:338040079 ask",
            To::One(ship),
            true,
        ),
    ] {
        let what = EventLine::Relay(ship, to, ask);
        assert!(rt; is_read_ashore(text.as_bytes(), 9, &what), "{text}");
    }
    Ok(())
}
