//! The answer to a group's facts, and what follows a reported call.
ghost use Rattle.std.specs.Prelude.{◌≡◌};
ghost use Rattle.slot_join.specs.Answer as answers;

use call_values::Call;
use expansion::Expansion;

/// What follows a reported call on air (this project's profile).
#[derive(Clone, Copy, Debug, PartialEq, Eq)]
pub enum Extra {
    /// No place after the call showed a symbol.
    Absent,
    /// The places after the call showed this expansion, up to its error check character.
    Whole(Expansion),
    /// Places after the call showed symbols, but no expansion: this is the first place at which none goes on.
    Broken(u8),
}

/// The answer to a group's facts. A place is that of a character in the call's list, counted from 0, with the format
/// specifier at places 0 and 1.
#[derive(Clone, Copy, Debug, PartialEq, Eq)]
pub enum Joined {
    /// The one call that the facts show, up to its error check character.
    Reported { call: Call, expansion: Extra },
    /// No symbol is known of this place.
    Missing(u8),
    /// Several symbols were shown at this place: the least and the greatest.
    Differ(u8, u8, u8),
    /// No call goes on with this symbol at this place.
    Outside(u8, u8),
    /// The error check character is not the one that the call wants.
    Check { n: u8, want: u8, got: u8 },
}

/// Whether a call was reported.
pub fn is_reported(answer: &Joined) -> bool
    ensures { result ≡ answers.is_reported answer.now }
{
    match answer {
        Joined::Reported { .. } => true,
        _ => false,
    }
}
