//! A count up to three, for 64 places at once.
ghost use Rattle.std.specs.Prelude.{ℕ, ◌+◌, Bool, cond};
ghost use Rattle.ten_unit.specs.inside.Marks.{IsMarks};
ghost use Rattle.phasing.specs.inside.Marked.{IsCount};

/// How many tests hold at each of 64 places, as far as three: a bit a place says whether it is at least one, two,
/// three.
#[derive(Clone, Copy)]
pub(crate) struct Count {
    pub one: u64,
    pub two: u64,
    pub three: u64,
}

impl Count {
    /// None at any place.
    pub fn none() -> Self
        ensures { (base : ℕ) → IsCount result base (λ _. 0) }
    {
        Count {
            one: 0,
            two: 0,
            three: 0,
        }
    }

    /// One more at each place where this test holds.
    pub fn add(self, right: u64) -> Self
        ensures { (base : ℕ) (number : ℕ → ℕ) (f : ℕ → Bool) → IsCount self base number → IsMarks right base f
            → IsCount result base (λ place. number place + cond (f place) 1 0) }
    {
        Count {
            one: self.one | right,
            two: self.two | self.one & right,
            three: self.three | self.two & right,
        }
    }
}
