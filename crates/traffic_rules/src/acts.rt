//! What a station does at an event.
ghost use Rattle.std.specs.Prelude.{◌≡◌, ◌<◌, [], ◌∷◌, ◌++◌, length};

use arrayvec::ArrayVec;
use call_values::{Call, Casualty, Mmsi};

/// What a station does at an event (ITU-R M.541, operational procedures; the numbers of held calls are this project's
/// profile).
#[derive(Clone, Copy, Debug, Default, PartialEq, Eq)]
pub enum Act {
    /// It sends a call, so many times in a row.
    Send { call: Call, times: u8 },
    /// It shows the heard call to its operator.
    #[default]
    Shown,
    /// It holds the call under this number, 1 to 16.
    Held(u8),
    /// The heard call answers the one that it sent and holds under this number, which is free again.
    Answered(u8),
    /// It gives up the call that it sent and holds under this number, which is free again.
    GaveUp(u8),
    /// It informs its operator of a ship in distress.
    Distress(Casualty),
    /// Its own distress alert is off.
    AlertEnded,
    /// Another station has acknowledged the distress alert of this ship.
    CasualtyClosed(Mmsi),
}

/// What a station does at one event, in order: at most 32 acts.
pub type Acts = ArrayVec<Act, 32>;

/// Puts an act last, for which there is room.
pub fn add_act(acts: &mut Acts, act: Act)
    requires { length acts.old.items < 32 }
    ensures { acts.new.items ≡ acts.old.items ++ act ∷ [] }
{
    match act {
        Act::Send { call, times } => acts.push(Act::Send { call, times }),
        other => acts.push(other),
    }
}

/// One act alone.
pub fn single(act: Act) -> Acts
    ensures { result.items ≡ act ∷ [] }
{
    let mut acts = ArrayVec::new();
    add_act(&mut acts, act);
    acts
}
