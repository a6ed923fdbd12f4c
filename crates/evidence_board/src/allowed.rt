//! The facts that may be posted on a board.
ghost use Rattle.std.specs.Prelude.{◌≡◌, ℕ, List, []};
ghost use Rattle.slot_evidence.specs.declared.places.Seen.{Seen};
ghost use Rattle.slot_evidence.specs.Sheet.{IsSheet};
ghost use Rattle.slot_evidence.specs.Allowed.{OnlyAllowed};
ghost use Rattle.evidence_board.specs.Facts.{all_facts};

use std::marker::Brand;

/// The facts that may be posted on a board of this type. Whoever makes the board chooses the type.
pub trait Allowed: Send + Sync {
    // The facts: each is a place and a symbol. Contracts alone see them.
    ghost facts: { List (ℕ × ℕ) };
}

/// Every fact with a place below 64 and a symbol below 128 may be posted.
#[derive(Clone, Copy, Debug, PartialEq, Eq)]
pub struct AllFacts;

impl Allowed for AllFacts {
    ghost facts = { all_facts };
}

/// A caller of a function over `A: Allowed` picks the facts at the call.
impl Allowed for Brand {
    ghost facts = { [] };
}

/// The law that what any sheet keeps may be posted where every fact may be. It does nothing.
pub fn all_facts_may_be_posted()
    ensures { (sheet : List Seen) → IsSheet sheet → OnlyAllowed all_facts sheet }
{}
