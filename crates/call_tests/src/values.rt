//! Values at the ends of their ranges.
use call_values::*;

/// What is made of one number.
#[derive(Clone, Copy, Debug)]
enum Made {
    Identity,
    Nature,
    Communications,
    FirstTelecommand,
    SecondTelecommand,
    AlertDelay,
    CoastDelay,
}

/// The number of what is made of this one.
fn number_of(made: Made, n: u32) -> Option<u32> {
    let symbol = u8::try_from(n).unwrap_or(0);
    match made {
        Made::Identity => Mmsi::new(n).map(|mmsi| mmsi.number()),
        Made::Nature => Nature::new(symbol).map(|nature| nature.number().into()),
        Made::Communications => Comm::new(symbol).map(|comm| comm.number().into()),
        Made::FirstTelecommand => First::new(symbol).map(|first| first.number().into()),
        Made::SecondTelecommand => Second::new(symbol).map(|second| second.number().into()),
        Made::AlertDelay => AlertDelay::new(n).map(|delay| delay.number()),
        Made::CoastDelay => CoastDelay::new(n).map(|delay| delay.number()),
    }
}

/// Numbers at the edges: those of which something is made, and those of which nothing is.
const EDGES: [(Made, &[u32], &[u32]); 7] = [
    (Made::Identity, &[0, 999_999_999], &[1_000_000_000]),
    (Made::Nature, &[100, 110, 112], &[99, 111, 113]),
    (Made::Communications, &[100, 126], &[99, 102, 127]),
    (
        Made::FirstTelecommand,
        &[100, 101, 103, 104, 106, 109, 113, 115, 126],
        &[99, 102, 105, 107, 110, 112, 118, 121, 127],
    ),
    (
        Made::SecondTelecommand,
        &[100, 113, 126],
        &[99, 114, 125, 127],
    ),
    (Made::AlertDelay, &[210_000, 270_000], &[209_999, 270_001]),
    (Made::CoastDelay, &[60_000, 165_000], &[59_999, 165_001]),
];

#[test]
fn numbers_at_the_edges(rt: HostRuntime) {
    for (kind, inside, outside) in EDGES {
        for n in inside {
            assert_eq!(rt; number_of(kind, *n), Some(*n), "{kind:?} {n}");
        }
        for n in outside {
            assert_eq!(rt; number_of(kind, *n), None, "{kind:?} {n}");
        }
    }
}

/// What is known of a place that is made of a quadrant, and of degrees and minutes of latitude and of longitude.
fn known_place(parts: [u8; 5]) -> Option<Option<Fix>> {
    Position::new(fix_of(parts)).map(|position| position.known())
}

fn fix_of(parts: [u8; 5]) -> Fix {
    Fix {
        quadrant: parts[0],
        lat_deg: parts[1],
        lat_min: parts[2],
        lon_deg: parts[3],
        lon_min: parts[4],
    }
}

#[test]
fn places_at_the_edges(rt: HostRuntime) {
    for parts in [[0, 0, 0, 0, 0], [3, 90, 0, 180, 0], [3, 89, 59, 179, 59]] {
        assert_eq!(rt; known_place(parts), Some(Some(fix_of(parts))), "{parts:?}");
    }
    for parts in [
        [4, 0, 0, 0, 0],
        [0, 90, 1, 0, 0],
        [0, 91, 0, 0, 0],
        [0, 0, 60, 0, 0],
        [0, 0, 0, 180, 1],
        [0, 0, 0, 181, 0],
        [0, 0, 0, 0, 60],
    ] {
        assert_eq!(rt; known_place(parts), None, "{parts:?}");
    }
    assert_eq!(rt; Position::unknown().known(), None);
}

#[test]
fn times_at_the_edges(rt: HostRuntime) {
    for (hour, minute, is) in [(0, 0, true), (23, 59, true), (24, 0, false), (0, 60, false)] {
        assert_eq!(rt;
            HourMinute::new(hour, minute).map(|time| time.known()),
            is.then_some(Some((hour, minute)))
        );
    }
    assert_eq!(rt; HourMinute::unknown().known(), None);
}

#[test]
fn areas_at_the_edges(rt: HostRuntime) {
    for (parts, is) in [
        ([0, 0, 0, 0, 0], true),
        ([3, 90, 180, 99, 99], true),
        ([4, 0, 0, 0, 0], false),
        ([0, 91, 0, 0, 0], false),
        ([0, 0, 181, 0, 0], false),
        ([0, 0, 0, 100, 0], false),
        ([0, 0, 0, 0, 100], false),
    ] {
        let [quadrant, latitude, longitude, south, east] = parts;
        let read = Area::new(quadrant, latitude, longitude, south, east).map(|area| {
            [
                area.quadrant(),
                area.latitude(),
                area.longitude(),
                area.south(),
                area.east(),
            ]
        });
        assert_eq!(rt; read, is.then_some(parts), "area {parts:?}");
    }
}

#[test]
fn fields_at_the_edges(rt: HostRuntime) {
    for (made, kind) in [
        (Some(Field::absent()), Some(FieldKind::Absent)),
        (Field::hundreds(299_999), Some(FieldKind::Hundreds(299_999))),
        (Field::hundreds(300_000), None),
        (Field::hf(99_999), Some(FieldKind::Hf(99_999))),
        (Field::hf(100_000), None),
        (Field::vhf(9_999), Some(FieldKind::Vhf(9_999))),
        (Field::vhf(10_000), None),
        (Field::tens(9_999_999), Some(FieldKind::Tens(9_999_999))),
        (Field::tens(10_000_000), None),
    ] {
        assert_eq!(rt; made.map(|field| field.kind()), kind);
    }
}
