//! Minutes of the day by hand.
use station_lines::civil_minute;

// A base, a moment, and the hour and the minute in UTC.
const MINUTES: [(u32, u32, u8, u8); 9] = [
    (0, 0, 0, 0),
    (0, 59_999, 0, 0),
    (0, 60_000, 0, 1),
    (0, 1_000, 0, 0),
    (59, 999, 0, 0),
    (59, 1_000, 0, 1),
    (86_399, 0, 23, 59),
    (86_399, 1_000, 0, 0),
    (1_714_594_740, 0, 20, 19),
];

#[test]
fn minutes_of_the_day(rt: HostRuntime) {
    for (base, at, hour, minute) in MINUTES {
        assert_eq!(rt;
            civil_minute(u64::from(base), at).known(),
            Some((hour, minute))
        );
    }
}

#[test]
fn the_last_moment(rt: HostRuntime) {
    assert_eq!(rt;
        civil_minute(9_999_999_999, 4_294_967_295).known(),
        Some((10, 49))
    );
}
