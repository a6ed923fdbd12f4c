//! Giving one act alone.
ghost use Rattle.std.specs.Prelude.{◌≡◌, [], ◌∷◌};

use crate::acts::{Act, Acts, add_act};

/// Gives one act alone, into a list that is empty.
pub fn give(acts: &mut Acts, act: Act)
    requires { acts.old.items ≡ [] }
    ensures { acts.new.items ≡ act ∷ [] }
{
    add_act(acts, act);
}
