//! A walk through the lists of calls, symbol by symbol.
ghost use Rattle.std.specs.Prelude.{◌≡◌, ◌<◌, ◌≤◌, ◌↔◌, ◌++◌, ◌∷◌, IsTrue, [], drop, length};
ghost use Rattle.call_grammar.specs.Walk.{IsStep, IsDone, IsAtEnd};
ghost use Rattle.call_grammar.specs.inside.Judging.{is_taken, IsCovered};

use crate::judging::{is_covered, judge};
use crate::spelling::append;
use arrayvec::ArrayVec;
use call_values::Call;
use dsc_symbols::ends::{ACKNOWLEDGE_BQ, ACKNOWLEDGE_RQ, EOS};
use std::marker::Model;

/// What a walk answers to one more symbol.
#[derive(Clone, Copy, Debug, PartialEq, Eq)]
pub enum Step {
    /// The symbol was taken, and more is wanted.
    More,
    /// The symbol was taken, and is the right error check character of this call.
    Done(Call),
    /// No call goes on with the symbol, which was left.
    Outside,
    /// The symbol is at the place of the error check character and isn't the right one. It was left.
    Check { want: u8, got: u8 },
}

impl Step {
    /// Whether the symbol was taken.
    fn is_taken(&self) -> bool
        ensures { result ≡ is_taken self.now }
    {
        match self {
            Step::More | Step::Done(_) => true,
            Step::Outside | Step::Check { .. } => false,
        }
    }
}

/// A walk through the lists of calls: the list taken so far, which has the format specifier twice.
#[derive(Drop)]
pub struct Walk {
    taken: ArrayVec<u8, 64>,
}

impl Model for Walk {
    ghost use Rattle.std.specs.Prelude.{List, ℕ, [], ◌≡◌, ◌⊎◌};
    ghost use Rattle.call_grammar.specs.Walk.{IsDone};
    ghost use Rattle.call_grammar.specs.inside.Judging.{IsWalking};

    ghost Value = { List ℕ };

    ghost view = { λ walk. walk.taken.items };

    ghost invariant = { λ walk. (walk.taken.items ≡ []) ⊎ IsWalking walk.taken.items ⊎ IsDone walk.taken.items };
}

impl Walk {
    /// A walk that has taken nothing.
    pub fn start() -> Walk
        ensures { result ≡ [] }
    {
        Walk {
            taken: ArrayVec::new(),
        }
    }

    /// Takes one more symbol, below 128, of a call that isn't done. The format specifier is taken once and counts
    /// twice. `Outside` and `Check` leave the walk as it was.
    pub fn take(&mut self, x: u8) -> Step
        requires symbol { x < 128 }
        requires open { IsDone self.old → ⊥ }
        ensures step { IsStep self.old x result self.new }
    {
        let before = self.taken.len();
        if before == 0 {
            self.taken.push(x);
        }
        self.taken.push(x);
        let step = judge(self.taken.as_slice());
        if !step.is_taken() {
            self.taken.truncate(before);
        }
        step
    }

    /// Whether the next symbol is the call's first end of sequence.
    pub fn wants_end(&self) -> bool
        ensures { IsTrue result ↔ IsAtEnd self.now }
    {
        if self.ends_with(ACKNOWLEDGE_RQ) {
            return true;
        }
        if self.ends_with(ACKNOWLEDGE_BQ) {
            return true;
        }
        self.ends_with(EOS)
    }

    /// Whether the check of some call would follow this symbol.
    fn ends_with(&self, end: u8) -> bool
        ensures at_end { IsTrue result → IsAtEnd self.now }
        ensures covered { IsCovered (drop 1 (self.now ++ end ∷ [])) → IsTrue result }
    {
        let list = followed(self.taken.as_slice(), end);
        is_covered(list.as_slice())
    }
}

/// The list and one more symbol.
fn followed(list: &[u8], symbol: u8) -> ArrayVec<u8, 64>
    requires { length list.now ≤ 60 }
    ensures { result.items ≡ list.now ++ symbol ∷ [] }
{
    let mut longer = ArrayVec::new();
    append(&mut longer, list);
    append(&mut longer, &[symbol]);
    longer
}
