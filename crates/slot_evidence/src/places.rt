//! What a place showed: nothing, one symbol, or several.
ghost use Rattle.std.specs.Prelude.{◌≡◌, ◌||◌, ◌<◌, ◌≤◌, MatchOption};
ghost use Rattle.slot_evidence.specs.TwoNumbers.{AreInOrder, seen_between, span_seen};
ghost use Rattle.slot_evidence.specs.Facts.{Symbols};
ghost use Rattle.slot_evidence.specs.Seen.{ShowsNone, IsSeen, IsLawful};
ghost use Rattle.slot_evidence.specs.inside.Span.{IsSpan, IsLawfulSpan};

/// What is known of a place: no symbol was shown, one and no other, or several, of which the least and the
/// greatest are kept.
#[derive(Clone, Copy, Debug, PartialEq, Eq)]
pub enum Seen {
    None,
    One(u8),
    Differ(u8, u8),
}

impl Seen {
    /// What the least symbol and the greatest plus one say of a place: 128 and 0 where no symbol was shown.
    pub(crate) fn between(least: u8, past: u8) -> Seen
        requires { AreInOrder least past }
        ensures seen { result ≡ seen_between least past }
        ensures lawful { IsLawful result }
    {
        if past == 0 {
            return Seen::None;
        }
        Seen::of_span(least, past - 1)
    }

    /// What is kept of all the symbols that two of these were kept of.
    pub fn meet(self, other: Seen) -> Seen
        ensures union { (S T : Symbols) → IsSeen S self → IsSeen T other → IsSeen (λ v. S v || T v) result }
        ensures lawful { IsLawful self → IsLawful other → IsLawful result }
    {
        let Some((least, greatest)) = self.span() else {
            return other;
        };
        let Some((other_least, other_greatest)) = other.span() else {
            return self;
        };
        Seen::of_span(least.min(other_least), greatest.max(other_greatest))
    }

    /// The least and the greatest symbol, if there is one.
    fn span(self) -> Option<(u8, u8)>
        ensures ends { (S : Symbols) → IsSeen S self
            → MatchOption result (ShowsNone S) (λ ends. IsSpan S ends.0 ends.1) }
        ensures lawful { IsLawful self → MatchOption result (Unit {0}) IsLawfulSpan }
    {
        match self {
            Seen::None => None,
            Seen::One(symbol) => Some((symbol, symbol)),
            Seen::Differ(least, greatest) => Some((least, greatest)),
        }
    }

    /// What is kept of several symbols, by the least and the greatest of them.
    fn of_span(least: u8, greatest: u8) -> Seen
        ensures value { result ≡ span_seen least greatest }
        ensures ends { (S : Symbols) → IsSpan S least greatest → IsSeen S result }
        ensures lawful { IsLawfulSpan (least, greatest) → IsLawful result }
    {
        if least == greatest {
            Seen::One(least)
        } else {
            Seen::Differ(least, greatest)
        }
    }
}
