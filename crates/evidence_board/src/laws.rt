//! Laws: each function here does nothing, and its contract is a theorem over definitions.
ghost use Rattle.std.specs.Prelude.{◌≡◌, ℕ, ◌<◌, List};
ghost use Rattle.evidence_board.specs.Seats.{IsSeated};
ghost use Rattle.evidence_board.specs.Events.{Event, words_after, IsLeast, IsPastGreatest, HaveSame};
ghost use Rattle.evidence_board.specs.Rule.{words_of, IsKept};
ghost use Rattle.evidence_board.specs.Views.{View};

use crate::allowed::Allowed;
use crate::seats::{Seat, WHOLE};

/// The law of the core: after any list of events the words of each place are the least and the greatest of its events,
/// so lists of the same events, in any order and with any repetition, end alike. It speaks of boards: the words that
/// the rule keeps are those that some events leave.
pub fn one_core()
    ensures least { (events : List Event) (p : ℕ) → IsLeast events p (words_after events p).least }
    ensures greatest { (events : List Event) (p : ℕ) → IsPastGreatest events p (words_after events p).past }
    ensures alike { (events others : List Event) → HaveSame events others → (p : ℕ)
        → words_after events p ≡ words_after others p }
    ensures boards { (facts : List (ℕ × ℕ)) (words : List ℕ) (views : List View) → IsKept facts words views
        → (events : List Event) × ((p : ℕ) → p < 64 → words_after events p ≡ words_of words p) }
{}

/// The law that every seat has a share and is at rest between two calls.
pub fn seats_are_at_rest<A: Allowed>(seat: &Seat<A>)
    ensures { IsSeated seat.now.view }
{
    let _share = &seat.share;
}

/// The law that fixes the whole share of a board: 1,073,741,824. That the shares of its seats add up to it is part of
/// the board's rule.
pub fn whole_share()
    ensures { WHOLE ≡ 1073741824 }
{}
