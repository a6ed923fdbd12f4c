//! Times of day in calls, in UTC to the minute.
ghost use Rattle.std.specs.Prelude.{◌≡◌, ◌↔◌, ℕ, Option, IfSome, IsSome};
ghost use Rattle.call_values.specs.Clock.{IsTimeOfDay, IsHourMinute};

use std::marker::Model;

/// The time in a distress call, in UTC to the minute, or that it is not known (ITU-R M.493, time of a distress alert).
#[derive(Clone, Copy, Debug, PartialEq, Eq)]
pub struct HourMinute {
    time: Option<(u8, u8)>,
}

impl Model for HourMinute {
    ghost Value = { Option (ℕ × ℕ) };

    ghost view = { λ a. a.time };

    ghost invariant = { λ a. IsHourMinute a.time };

    ghost inverse = { λ v. record { time = v } };
}

impl HourMinute {
    /// The time at an hour and a minute, and `None` exactly where the hour passes 23 or the minute 59.
    pub fn new(hour: u8, minute: u8) -> Option<HourMinute>
        ensures value { IfSome result (λ t. t ≡ Some (hour, minute)) }
        ensures some { IsSome result ↔ IsTimeOfDay hour minute }
    {
        if hour < 24 && minute < 60 {
            Some(HourMinute {
                time: Some((hour, minute)),
            })
        } else {
            None
        }
    }

    /// The time of a call that does not say it.
    pub fn unknown() -> HourMinute
        ensures { result ≡ None }
    {
        HourMinute { time: None }
    }

    /// The hour and the minute, where they are known.
    pub fn known(&self) -> Option<(u8, u8)>
        ensures value { result ≡ self.now }
        ensures range { IsHourMinute result }
    {
        self.time
    }
}
