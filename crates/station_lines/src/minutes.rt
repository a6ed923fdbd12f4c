//! The minute of the day at a moment of a traffic file.
ghost use Rattle.std.specs.Prelude.{◌≡◌, ◌≤◌, Some};
ghost use Rattle.station_lines.specs.CivilTime.{second_of, hour_of, minute_of};

use call_values::HourMinute;
use call_values::bounds::LAST_BASE;
use jiff::Timestamp;
use jiff::tz::Offset;

/// The hour and the minute in UTC of the moment this many milliseconds after a base, which is in seconds after the
/// beginning of 1970 (ITU-R M.493, time of a distress alert).
pub fn civil_minute(base: u64, at: u32) -> HourMinute
    requires { base ≤ LAST_BASE }
    ensures { result ≡ Some (hour_of (second_of base at), minute_of (second_of base at)) }
{
    let second = base + u64::from(at) / 1000;
    let instant = Timestamp::from_second(second as i64).unwrap();
    let civil = Offset::UTC.to_datetime(instant);
    HourMinute::new(civil.hour() as u8, civil.minute() as u8).unwrap()
}
