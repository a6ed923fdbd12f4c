//! Whether a delay has passed since a moment.
ghost use Rattle.std.specs.Prelude.{◌≡◌};
ghost use Rattle.traffic_rules.specs.Moments as moments;

/// Whether at least this wait, in milliseconds, has passed from one moment to a later one.
pub fn has_passed(wait: u64, from: u64, to: u64) -> bool
    ensures { result ≡ moments.has_passed wait from to }
{
    wait <= to.saturating_sub(from)
}
