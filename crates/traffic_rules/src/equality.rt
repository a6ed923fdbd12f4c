//! Whether two calls are equal.
ghost use Rattle.std.specs.Prelude.{◌≡◌, ◌↔◌, IsTrue};
ghost use Rattle.traffic_rules.specs.Hearing as hearing;

use call_grammar::{one_list, spell};
use call_values::Call;

/// Whether two calls are equal in all their parts, which is where their lists are equal (ITU-R M.493, composition of
/// the calls).
pub fn are_equal(a: &Call, b: &Call) -> bool
    ensures value { result ≡ hearing.are_equal a.now b.now }
    ensures same { IsTrue result ↔ (a.now ≡ b.now) }
{
    a.lawful();
    b.lawful();
    one_list();
    spell(a).as_slice() == spell(b).as_slice()
}
