//! A watcher of a board.
ghost use Rattle.std.specs.Prelude.{◌≡◌, ℕ, ◌+◌, ◌<◌, true, List, None};
ghost use Rattle.call_values.specs.Calls.{IsCall};
ghost use Rattle.call_values.specs.declared.calls.Call.{Call as Sent};
ghost use Rattle.evidence_board.specs.Looks.{IsLooked};
ghost use Rattle.evidence_board.specs.Views.{place_at, given_sheet, seen_sheet};
ghost use Rattle.live_watch.specs.Watching.{IsNews, IsNewsOf, CarriesCall, SawCall};
ghost use Rattle.live_watch.specs.inside.Posted.{call_in, IsFirst, IsToldOn};
ghost use Rattle.slot_evidence.specs.Allowed.{IsAllowed};
ghost use Rattle.slot_evidence.specs.Facts.{Facts, union};
ghost use Rattle.slot_evidence.specs.Sheet.{IsEnds};
ghost use Rattle.slot_join.specs.OneCall.{AreOneCalls};

use call_grammar::lists_are_short;
use call_values::Call;
use evidence_board::{Allowed, Board, Seat, seats_are_at_rest};
use slot_evidence::{Sheet, sheet_has_facts};
use slot_join::{Joined, looks_report_the_call, one_answer, report};
use std::marker::Model;

/// What a look at a board shows.
#[derive(Clone, Copy, Debug, PartialEq, Eq)]
pub enum News {
    /// The first call that a look reported.
    New(Call),
    /// The call that was told before.
    Same(Call),
    /// No call is told, and this is the answer to what the board shows.
    Not(Joined),
}

/// A seat that looks at its board until it can report a call. Contracts see it as its seat and the call that it told.
#[derive(Drop)]
pub struct Watcher<A: Allowed> {
    seat: Seat<A>,
    told: Option<Call>,
}

impl<A: Allowed> Model for Watcher<A> {
    ghost use Rattle.live_watch.specs.Watching.{Watched};
    ghost use Rattle.live_watch.specs.inside.Posted.{IsToldOn};

    ghost Value = { Watched };

    ghost view = { λ w. record { seat = w.seat; told = w.told } };

    ghost invariant = { λ w. IsToldOn A.facts w.told };
}

impl<A: Allowed> Watcher<A> {
    /// A watcher with this seat, which has told nothing.
    pub fn new(seat: Seat<A>) -> Watcher<A>
        ensures seat { result.seat ≡ seat }
        ensures untold { result.told ≡ None }
    {
        Watcher { seat, told: None }
    }

    /// Makes one look, and answers what it shows: the call that was told before, or the first call that a look reports,
    /// which is then told, or the answer to what the board shows, which is then no call.
    pub fn poll(self, board: &Board<A>) -> (Watcher<A>, News)
        requires { self.seat.table ≡ board.now }
        ensures board { result.0.seat.table ≡ board.now }
        ensures share { result.0.seat.view.share ≡ self.seat.view.share }
        ensures places { (p : ℕ) → p < 64
            → IsLooked A.facts p (place_at self.seat.view p) (place_at result.0.seat.view p) }
        ensures given { given_sheet result.0.seat.view ≡ given_sheet self.seat.view }
        ensures exact { (F : Facts) → ((p v : ℕ) → IsAllowed A.facts p v → F p v ≡ true)
            → IsEnds F (given_sheet self.seat.view) → IsEnds F (seen_sheet result.0.seat.view) }
        ensures news { IsNews (seen_sheet result.0.seat.view) self.told result.0.told result.1 }

        // Where one call's facts alone may be posted, no other call is told; and it is told where the seat knew each of
        // its places.
        ensures one { (call : Sent) (tail : List ℕ) → IsCall call → AreOneCalls A.facts call tail
            → IsNewsOf call (seen_sheet result.0.seat.view) result.1 }
        ensures known { (call : Sent) (tail : List ℕ) → IsCall call → AreOneCalls A.facts call tail
            → SawCall self.seat.view call → CarriesCall call result.1 }
    {
        looks_report_the_call();
        lists_are_short();
        let Watcher { seat, told } = self;
        let (seat, sheet) = board.look(seat);
        seats_are_at_rest(&seat);
        let news = news_of(told, &sheet);
        (
            Watcher {
                seat,
                told: told_by(&news),
            },
            news,
        )
    }

    /// The watcher with another seat of its board joined into its own. It has told what it told.
    pub(crate) fn with_seat(self, board: &Board<A>, other: Seat<A>) -> Watcher<A>
        requires { (self.seat.table ≡ board.now) × (other.table ≡ board.now) }
        ensures board { result.seat.table ≡ board.now }
        ensures share { result.seat.view.share ≡ self.seat.view.share + other.view.share }
        ensures union { (F G : Facts) → IsEnds F (given_sheet self.seat.view) → IsEnds G (given_sheet other.view)
            → IsEnds (union F G) (given_sheet result.seat.view) }
        ensures told { result.told ≡ self.told }
    {
        let Watcher { seat, told } = self;
        Watcher {
            seat: board.join(seat, other),
            told,
        }
    }

    /// The seat, with the view that it has.
    pub fn leave(self) -> Seat<A>
        ensures { result ≡ self.seat }
    {
        self.seat
    }

    /// The call that was told, if any: symbols that may be posted report it.
    pub(crate) fn told(&self) -> Option<Call>
        ensures call { result ≡ self.now.told }
        ensures posted { IsToldOn A.facts result }
    {
        self.told
    }
}

/// What a look with this sheet shows a watcher that told this call, or none.
fn news_of(told: Option<Call>, sheet: &Sheet) -> News
    ensures { IsNews sheet.now told (call_in result) result }
{
    one_answer();
    sheet_has_facts(sheet);
    match told {
        Some(call) => News::Same(call),
        None => first_news(report(sheet)),
    }
}

/// What an answer says where no call was told.
fn first_news(joined: Joined) -> News
    ensures { IsFirst joined result }
{
    match joined {
        Joined::Reported { call, .. } => News::New(call),
        other => News::Not(other),
    }
}

/// The call that news carry, which is told from then on.
fn told_by(news: &News) -> Option<Call>
    ensures { result ≡ call_in news.now }
{
    match *news {
        News::New(call) | News::Same(call) => Some(call),
        News::Not(_) => None,
    }
}
