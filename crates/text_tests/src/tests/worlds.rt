//! Lines of exchanges, and their columns.
use call_values::{CoastDelay, Mmsi};
use dsc_files::{EventLine, ExchangeLine, FileKind, Line, line_of, read_world, world_line};
use std::test::Fail;
use traffic_lines::{CoastOwn, Deed, EndEvent, Event, ExchangePoint, WorldLine};

// Points, lines that aren't of these points, and the column at which each is ill-formed.
const COLUMNS: [(ExchangePoint, &str, usize); 8] = [
    (ExchangePoint::Ship, "station coast 002241022 mf", 9),
    (ExchangePoint::Base, "s 0 tick", 1),
    (ExchangePoint::Events, "0 tick", 1),
    (ExchangePoint::Events, "s tick", 3),
    (ExchangePoint::Events, "s 0 h", 5),
    (ExchangePoint::Events, "s 0 get 4294967296", 18),
    (ExchangePoint::Events, "s 0 accept 338040079", 6),
    (ExchangePoint::Events, "c 5 alert", 6),
];

#[test]
fn ill_formed_lines_of_exchanges_have_columns(rt: HostRuntime) {
    for (point, text, column) in COLUMNS {
        assert_eq!(rt; read_world(point, text.as_bytes()), Err(column), "{text}");
    }
}

// The coast station of an exchange is another than its ship: the fault is at the last digit.
#[test]
fn coast_stations_are_no_ships(rt: HostRuntime) {
    let texts: [(u32, &str); 3] = [
        (0, "station coast 000000000 mf"),
        (2_241_022, "station coast 002241022 mf"),
        (999_999_999, "station coast 999999999 mf"),
    ];
    for (number, text) in texts {
        let ship = Mmsi::new(number).expect(&rt, "an identity");
        let point = ExchangePoint::Coast { ship };
        assert_eq!(rt; read_world(point, text.as_bytes()), Err(23), "{text}");
        let ship = Mmsi::new(number).expect(&rt, "an identity");
        let point = ExchangePoint::Coast { ship };
        let other = b"station coast 002241023 vhf";
        assert!(rt; read_world(point, other).is_ok(), "{text}");
    }
}

#[test]
fn lines_of_exchanges_are_read(rt: HostRuntime) {
    let ship = Mmsi::new(338_040_079).expect(&rt, "an identity");
    let delay = CoastDelay::new(60_000).expect(&rt, "a delay");
    let accept = CoastOwn::Accept(ship, Some(delay));
    assert_eq!(rt;
        read_world(ExchangePoint::Events, b"s 0 get 4294967295"),
        Ok(WorldLine::EndEvent(EndEvent::AtShip {
            at: 0,
            what: Event::Comes(4_294_967_295)
        }))
    );
    assert_eq!(rt;
        read_world(ExchangePoint::Events, b"c 7000 accept 338040079 60000"),
        Ok(WorldLine::EndEvent(EndEvent::AtCoast {
            at: 7000,
            what: Event::Does(Deed::Own(accept))
        }))
    );
    assert_eq!(rt; world_line(ExchangePoint::Base, b"# base"), Ok(None));
    assert_eq!(rt;
        world_line(ExchangePoint::Base, b"base 0"),
        Ok(Some(WorldLine::Base(0)))
    );
}

#[test]
fn lines_of_exchanges_are_lines_of_files(rt: HostRuntime) -> Result<(), Fail> {
    let events = FileKind::Exchange(ExchangePoint::Events);
    let Line::AtCoast { at, what } = line_of(rt.alloc(), events, b"c 5 tick")? else {
        return Err("no event")?;
    };
    assert_eq!(rt; (at, what), (5, ExchangeLine::Event(EventLine::Tick)));
    let events = FileKind::Exchange(ExchangePoint::Events);
    let Line::AtShip { at, what } = line_of(rt.alloc(), events, b"s 5 get 1")? else {
        return Err("no event")?;
    };
    assert_eq!(rt; (at, what), (5, ExchangeLine::Get(1)));
    Ok(())
}
