//! How a list goes on at its last symbol: whether some call's list does.
ghost use Rattle.std.specs.Prelude.{◌≡◌, ◌↔◌, IsTrue, ℕ, ◌<◌, List, ◌∷◌, ◌++◌, length, drop};
ghost use Rattle.call_values.specs.Calls.{IsCall};
ghost use Rattle.call_grammar.specs.Spelling.{covered, check_of};
ghost use Rattle.call_grammar.specs.inside.Judging.{Judges, IsCovered};

use crate::forms::checked_characters;
use crate::walking::Step;
use call_values::Call;
use cursor::Cursor;
use symbol_reader::{Stop, check};

/// How a call's list, which has the format specifier twice, goes on at the last symbol.
pub fn judge(list: &[u8]) -> Step
    requires { 0 < length list.now }
    ensures { Judges (drop 1 list.now) result }
{
    let once = &list[1..];
    let mut cursor = Cursor::new(once);
    let call = match checked_characters(&mut cursor) {
        Ok(call) => call,
        Err(Stop::Short) => return Step::More,
        Err(Stop::Outside) => return Step::Outside,
    };
    let rest = cursor.rest();
    match rest.first() {
        None => Step::More,
        Some(got) => compare(call, check(&once[..once.len() - rest.len()]), *got),
    }
}

/// Whether the list, which has the format specifier twice, is all that comes before some call's check.
pub fn is_covered(list: &[u8]) -> bool
    requires { 0 < length list.now }
    ensures { IsTrue result ↔ IsCovered (drop 1 list.now) }
{
    let mut cursor = Cursor::new(&list[1..]);
    match checked_characters(&mut cursor) {
        Ok(_) => cursor.rest().is_empty(),
        Err(_) => false,
    }
}

/// The answer to a symbol at the place of the check.
fn compare(call: Call, want: u8, got: u8) -> Step
    requires lawful { IsCall call }
    requires check { want ≡ check_of (covered call) }
    ensures { (l rest : List ℕ) → l ≡ covered call ++ (got ∷ rest) → Judges l result }
{
    if want == got {
        Step::Done(call)
    } else {
        Step::Check { want, got }
    }
}
