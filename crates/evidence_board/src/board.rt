//! The board.
ghost use Rattle.std.specs.Prelude.{◌≡◌, ℕ, ◌+◌, ◌<◌, ◌≤◌, IfOk, true};
ghost use Rattle.slot_evidence.specs.Facts.{Facts, no_facts, union};
ghost use Rattle.slot_evidence.specs.Sheet.{IsEnds, seen_at};
ghost use Rattle.slot_evidence.specs.Allowed.{IsAllowed, OnlyAllowed};
ghost use Rattle.evidence_board.specs.Views.{place_at, fresh, given_sheet, seen_sheet, reach_of};
ghost use Rattle.evidence_board.specs.Steps.{admitted, uncounted, joined};
ghost use Rattle.evidence_board.specs.Looks.{IsLooked};
ghost use Rattle.evidence_board.specs.Rule.{IsWithin};

use crate::allowed::Allowed;
use crate::looking::{kept_sheet, look};
use crate::posting::post;
use crate::seats::{Seat, WHOLE};
use crate::words::Words;
use slot_evidence::{Sheet, sheet_is_lawful};
use std::alloc::{AllocError, Global};
use std::marker::Model;

/// 128 words that threads share: of each of 64 places the least symbol that was posted, and the greatest one plus one.
/// A call makes single steps on them and waits for no other. Contracts see a board as its table's name, which its seats
/// have too.
#[derive(Drop)]
pub struct Board<A: Allowed> {
    words: Words<A>,
}

impl<A: Allowed> Model for Board<A> {
    ghost use Rattle.atomic_table.specs.Seated.{TableId, table_id_coded};

    ghost Value = { TableId };

    ghost coded = { table_id_coded };

    ghost view = { λ b. b.words };
}

impl<A: Allowed> Board<A> {
    /// An empty board, and a seat with the whole share that posted and saw nothing. The error is want of memory.
    pub fn new(alloc: Global) -> Result<(Board<A>, Seat<A>), AllocError>
        ensures seat { IfOk result (λ made. (made.1.table ≡ made.0) × (made.1.view ≡ fresh WHOLE)) }
        ensures empty { IfOk result (λ made. IsEnds no_facts (given_sheet made.1.view)) }
        ensures unseen { IfOk result (λ made. IsEnds no_facts (seen_sheet made.1.view)) }
    {
        let (words, token) = Words::new(alloc)?;
        Ok((Board { words }, Seat::first(token)))
    }

    /// Posts what a sheet keeps, the least symbol of each place before the greatest. Condition: it may be posted on
    /// this board.
    pub fn admit(&self, mut seat: Seat<A>, sheet: &Sheet) -> Seat<A>
        requires board { seat.table ≡ self.now }
        requires allowed { OnlyAllowed A.facts sheet.now }
        ensures board { result.table ≡ self.now }
        ensures share { result.view.share ≡ seat.view.share }
        ensures places { (p : ℕ) → p < 64 → place_at result.view p
            ≡ admitted (seen_at sheet.now p) (place_at seat.view p) }
        ensures union { (F G : Facts) → IsEnds F (given_sheet seat.view) → IsEnds G sheet.now
            → IsEnds (union F G) (given_sheet result.view) }
    {
        self.admit_at(&mut seat, sheet);
        seat
    }

    /// The same of a seat that is lent.
    pub fn admit_at(&self, seat: &mut Seat<A>, sheet: &Sheet)
        requires board { seat.old.table ≡ self.now }
        requires allowed { OnlyAllowed A.facts sheet.now }
        ensures board { seat.new.table ≡ self.now }
        ensures share { seat.new.view.share ≡ seat.old.view.share }
        ensures places { (p : ℕ) → p < 64 → place_at seat.new.view p
            ≡ admitted (seen_at sheet.now p) (place_at seat.old.view p) }
        ensures union { (F G : Facts) → IsEnds F (given_sheet seat.old.view) → IsEnds G sheet.now
            → IsEnds (union F G) (given_sheet seat.new.view) }
    {
        sheet_is_lawful(sheet);
        post(&self.words, &mut seat.token, sheet);
    }

    /// Makes two seats of one, with half of its share each and all that it knows. The new one has loaded nothing.
    /// Condition: a share of at least 2.
    pub fn split(&self, mut seat: Seat<A>) -> (Seat<A>, Seat<A>)
        requires board { seat.table ≡ self.now }
        requires share { 2 ≤ seat.view.share }
        ensures board { (result.0.table ≡ self.now) × (result.1.table ≡ self.now) }
        ensures shares { result.0.view.share + result.1.view.share ≡ seat.view.share }
        ensures halves { (1 ≤ result.1.view.share) × (result.1.view.share ≤ result.0.view.share)
            × (result.0.view.share ≤ result.1.view.share + 1) }
        ensures kept { (p : ℕ) → p < 64 → place_at result.0.view p ≡ place_at seat.view p }
        ensures new { (p : ℕ) → p < 64 → place_at result.1.view p ≡ uncounted (place_at seat.view p) }
        ensures given { (given_sheet result.0.view ≡ given_sheet seat.view)
            × (given_sheet result.1.view ≡ given_sheet seat.view) }
    {
        let other = self.split_off(&mut seat);
        (seat, other)
    }

    /// The same of a seat that is lent, which keeps the one half.
    pub fn split_off(&self, seat: &mut Seat<A>) -> Seat<A>
        requires board { seat.old.table ≡ self.now }
        requires share { 2 ≤ seat.old.view.share }
        ensures board { (seat.new.table ≡ self.now) × (result.table ≡ self.now) }
        ensures shares { seat.new.view.share + result.view.share ≡ seat.old.view.share }
        ensures halves { (1 ≤ result.view.share) × (result.view.share ≤ seat.new.view.share)
            × (seat.new.view.share ≤ result.view.share + 1) }
        ensures kept { (p : ℕ) → p < 64 → place_at seat.new.view p ≡ place_at seat.old.view p }
        ensures new { (p : ℕ) → p < 64 → place_at result.view p ≡ uncounted (place_at seat.old.view p) }
        ensures given { (given_sheet seat.new.view ≡ given_sheet seat.old.view)
            × (given_sheet result.view ≡ given_sheet seat.old.view) }
        ensures seen { seen_sheet result.view ≡ seen_sheet seat.old.view }
    {
        let token = self.words.split(&mut seat.token);
        let half = seat.share / 2;
        seat.share -= half;
        Seat::with_share(token, half)
    }

    /// Makes one seat of two, with both shares and all that both know.
    pub fn join(&self, mut a: Seat<A>, b: Seat<A>) -> Seat<A>
        requires board { (a.table ≡ self.now) × (b.table ≡ self.now) }
        ensures board { result.table ≡ self.now }
        ensures share { result.view.share ≡ a.view.share + b.view.share }
        ensures places { (p : ℕ) → p < 64 → place_at result.view p ≡ joined (place_at a.view p) (place_at b.view p) }
        ensures union { (F G : Facts) → IsEnds F (given_sheet a.view) → IsEnds G (given_sheet b.view)
            → IsEnds (union F G) (given_sheet result.view) }
    {
        self.join_into(&mut a, b);
        a
    }

    /// The same of a seat that is lent, which takes in the other.
    pub fn join_into(&self, seat: &mut Seat<A>, other: Seat<A>)
        requires board { (seat.old.table ≡ self.now) × (other.table ≡ self.now) }
        ensures board { seat.new.table ≡ self.now }
        ensures share { seat.new.view.share ≡ seat.old.view.share + other.view.share }
        ensures places { (p : ℕ) → p < 64 → place_at seat.new.view p
            ≡ joined (place_at seat.old.view p) (place_at other.view p) }
        ensures union { (F G : Facts) → IsEnds F (given_sheet seat.old.view) → IsEnds G (given_sheet other.view)
            → IsEnds (union F G) (given_sheet seat.new.view) }
    {
        let Seat { token, share, .. } = other;
        self.words.join(&mut seat.token, token);
        seat.share += share;
    }

    /// Looks at the board: at each place the greatest word is loaded, and after it the least word where the greatest
    /// isn't empty. It answers what the seat then saw of each place, which is what was loaded, and no less than it saw
    /// before. Where only facts of a set may be posted and this seat posted the ends of the set, it sees these.
    pub fn look(&self, mut seat: Seat<A>) -> (Seat<A>, Sheet)
        requires { seat.table ≡ self.now }
        ensures board { result.0.table ≡ self.now }
        ensures share { result.0.view.share ≡ seat.view.share }
        ensures places { (p : ℕ) → p < 64 → IsLooked A.facts p (place_at seat.view p) (place_at result.0.view p) }
        ensures sheet { result.1 ≡ seen_sheet result.0.view }
        ensures allowed { OnlyAllowed A.facts result.1 }
        ensures given { given_sheet result.0.view ≡ given_sheet seat.view }
        ensures exact { (F : Facts) → ((p v : ℕ) → IsAllowed A.facts p v → F p v ≡ true)
            → IsEnds F (given_sheet seat.view) → IsEnds F result.1 }
    {
        let sheet = self.look_at(&mut seat);
        (seat, sheet)
    }

    /// The same of a seat that is lent.
    pub fn look_at(&self, seat: &mut Seat<A>) -> Sheet
        requires { seat.old.table ≡ self.now }
        ensures board { seat.new.table ≡ self.now }
        ensures share { seat.new.view.share ≡ seat.old.view.share }
        ensures places { (p : ℕ) → p < 64 → IsLooked A.facts p (place_at seat.old.view p) (place_at seat.new.view p) }
        ensures sheet { result ≡ seen_sheet seat.new.view }
        ensures allowed { OnlyAllowed A.facts result }
        ensures given { given_sheet seat.new.view ≡ given_sheet seat.old.view }
        ensures exact { (F : Facts) → ((p v : ℕ) → IsAllowed A.facts p v → F p v ≡ true)
            → IsEnds F (given_sheet seat.old.view) → IsEnds F result }
    {
        look(&self.words, &mut seat.token)
    }

    /// Ends the board, and answers all that was admitted through the seats that were joined into this one: none of them
    /// saw more. Condition: the seat has the whole share.
    pub fn close(self, seat: Seat<A>) -> Sheet
        requires board { seat.table ≡ self }
        requires whole { seat.view.share ≡ WHOLE }
        ensures sheet { result ≡ given_sheet seat.view }
        ensures seen { (p : ℕ) → p < 64 → IsWithin (place_at seat.view p).seen (reach_of (seen_at result p)) }
    {
        let Board { words } = self;
        let Seat { token, .. } = seat;
        let closed = words.close(token);
        let sheet = kept_sheet(&closed);
        closed.free();
        sheet
    }
}
