//! Positions in areas, and who calls are addressed to.
use crate::tests::worked::{mmsi, unplaced};
use area_rules::*;
use call_values::{Area, Call, Fix, Position, To};
use std::test::Fail;

fn position(quadrant: u8, latitude: (u8, u8), longitude: (u8, u8)) -> Result<Position, Fail> {
    let fix = Fix {
        quadrant,
        lat_deg: latitude.0,
        lat_min: latitude.1,
        lon_deg: longitude.0,
        lon_min: longitude.1,
    };
    Ok(Position::new(fix).ok_or("position")?)
}

#[test]
fn positions_in_areas(rt: HostRuntime) -> Result<(), Fail> {
    let rows = [
        ((1, 43, 84, 2, 2), position(1, (42, 31), (83, 12))?, true),
        ((1, 42, 84, 2, 2), position(1, (42, 31), (83, 12))?, false),
        ((1, 43, 84, 0, 2), position(1, (42, 31), (83, 12))?, false),
        ((1, 43, 84, 2, 0), position(1, (42, 31), (83, 12))?, false),
        ((0, 10, 179, 5, 4), position(1, (8, 0), (178, 30))?, true),
        ((0, 10, 179, 5, 2), position(1, (8, 0), (178, 30))?, false),
        ((0, 10, 180, 0, 0), position(1, (10, 0), (180, 0))?, true),
        ((2, 85, 0, 99, 99), position(2, (90, 0), (99, 0))?, true),
        ((2, 85, 0, 99, 99), position(2, (90, 0), (99, 1))?, false),
        ((3, 0, 0, 1, 1), position(0, (0, 0), (1, 0))?, true),
        ((1, 90, 20, 0, 0), Position::unknown(), true),
    ];
    for (area, position, want) in rows {
        let (quadrant, latitude, longitude, south, east) = area;
        let area = Area::new(quadrant, latitude, longitude, south, east).ok_or("area")?;
        assert_eq!(rt;
            contains(&area, &position),
            want,
            "{position:?} in {area:?}"
        );
    }
    Ok(())
}

#[test]
fn calls_for_a_ship_and_a_coast_station(rt: HostRuntime) -> Result<(), Fail> {
    let own = mmsi(338_040_079)?;
    let groups = [mmsi(23_207_000)?, mmsi(33_804_000)?];
    let area = Area::new(1, 43, 84, 2, 2).ok_or("area")?;
    let here = position(1, (42, 31), (83, 12))?;
    let from = mmsi(2_241_022)?;
    let casualty = unplaced(338_158_137)?;
    let rows = [
        (To::All, true, true),
        (To::Area(area), true, false),
        (To::Group(mmsi(33_804_000)?), true, false),
        (To::Group(mmsi(33_804_001)?), false, false),
        (To::One(own), true, true),
        (To::One(from), false, false),
    ];
    for (to, ship, coast) in rows {
        let call = Call::RelayAck { to, from, casualty };
        assert_eq!(rt; for_ship(&call, own, &groups, &here), ship, "{to:?}");
        assert_eq!(rt; for_coast(&call, own), coast, "{to:?}");
    }
    assert!(rt; for_ship(&Call::Alert(casualty), own, &[], &here));
    Ok(())
}
