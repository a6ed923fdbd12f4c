//! A heard group's call, or the answer that is no call.
ghost use Rattle.std.specs.Prelude.{◌≡◌};
ghost use Rattle.traffic_replay.specs.Happenings as happenings;

use call_values::Call;
use slot_join::Joined;

/// A heard group of which no call was reported.
#[derive(Clone, Copy, Debug, PartialEq, Eq)]
pub struct Unreported {
    pub group: u32,
    pub answer: Joined,
}

/// The call that is heard by the answer to a heard group, or the group that isn't reported.
pub(crate) fn heard_call(group: u32, answer: &Joined) -> Result<Call, Unreported>
    ensures { result ≡ happenings.heard_as (λ call. call) group answer.now }
{
    match *answer {
        Joined::Reported { call, .. } => Ok(call),
        answer => Err(Unreported { group, answer }),
    }
}
