//! Why a station refuses an event.
ghost use Rattle.std.specs.Prelude.{◌≡◌};
ghost use Rattle.traffic_rules.specs.Moments as moments;

use call_values::Mmsi;

/// Why a station refuses an event (this project's profile). It is then as it was before.
#[derive(Clone, Copy, Debug, PartialEq, Eq)]
pub enum StationRefusal {
    /// Its distress alert is on already.
    AlertActive,
    /// Its distress alert isn't on.
    NoAlert,
    /// No call that it got is held under this number.
    NoSuchCall(u8),
    /// There is no room for what it would have to keep.
    Full,
    /// A delay must be given first.
    NeedsDelay,
    /// A call that its operator may not send.
    NotSendable,
    /// No distress alert of this ship is kept.
    NoCasualty(Mmsi),
    /// The event's moment is before the last accepted one, both in milliseconds.
    TimeBack { last: u64, given: u64 },
}

/// Why an event at a moment is refused after the last accepted one: `None` exactly where it isn't before it.
pub fn time_back(last: u64, given: u64) -> Option<StationRefusal>
    ensures { result ≡ moments.time_back last given }
{
    if given < last {
        Some(StationRefusal::TimeBack { last, given })
    } else {
        None
    }
}
