//! Workers who post each reception as soon as they read it.
ghost use Rattle.std.specs.Prelude.{◌≡◌, ℕ, ◌<◌, ◌≤◌, ◌&&◌, All, length};
ghost use Rattle.slot_evidence.specs.Facts.{Facts, facts_of, no_facts, union};
ghost use Rattle.slot_evidence.specs.Sheet.{IsEnds};
ghost use Rattle.evidence_board.specs.Views.{given_sheet};
ghost use Rattle.receiver_pool.specs.Groups.{AreSheets, IsShort};
ghost use Rattle.receiver_pool.specs.Rows.{AreSeats, Sit};
ghost use Rattle.receiver_pool.specs.inside.Turns.{is_turn};
ghost use Rattle.receiver_pool.specs.inside.Numbers.{ArePlaces, HavePosted, place_part};

use crate::boards::post_sheet;
use crate::gate::Entered;
use crate::group_entries::GroupReception;
use crate::pools::is_mine;
use crate::posts::Posts;
use evidence_board::{AllFacts, Board, Seat, all_facts_may_be_posted};
use phasing::LONGEST;
use slot_evidence::{Reception, Sheet, ends_are_kept, sheet_is_lawful, shown_by};

/// Takes what a reception shows into a sheet of all that was posted through a seat of the board with this number, where
/// it is one's turn, and posts it where that is new, and notes it.
fn post_turn(
    board: &Board<AllFacts>,
    seat: &mut Seat<AllFacts>,
    sheet: &mut Sheet,
    heard: &Reception,
    mine: bool,
    number: usize,
    posts: &Posts,
)
    requires board { seat.old.table ≡ board.now }
    requires short { length heard.now ≤ LONGEST }
    ensures board { seat.new.table ≡ board.now }
    ensures share { seat.new.view.share ≡ seat.old.view.share }
    ensures sheet { (P : Facts) → IsEnds P sheet.old
        → IsEnds (union P (λ p v. mine && facts_of heard.now p v)) sheet.new }
    ensures ends { (F P : Facts) → IsEnds P sheet.old → IsEnds (union F P) (given_sheet seat.old.view)
        → IsEnds (union F (union P (λ p v. mine && facts_of heard.now p v))) (given_sheet seat.new.view) }
{
    if !mine {
        return;
    }
    all_facts_may_be_posted();
    ends_are_kept();
    let shown = shown_by(heard);
    let before = *sheet;
    sheet.meet(&shown);
    sheet_is_lawful(&before);
    sheet_is_lawful(sheet);
    if *sheet == before {
        return;
    }
    sheet_is_lawful(&shown);
    post_sheet(board, seat, &shown);
    posts.note(number, &shown);
}

/// Posts the receptions of workers who have entered on the boards of their groups, each as soon as it was read, but for
/// those that show nothing new of the batch. The sheets are those of all that was posted.
pub(crate) fn post_turns(
    entered: &Entered,
    boards: &[Board<AllFacts>],
    seats: &mut [Seat<AllFacts>],
    sheets: &mut [Sheet],
    batch: &[GroupReception],
    places: &[usize],
    posts: &Posts,
    workers: u32,
)
    requires workers { 0 < workers }
    requires seats { Sit 1 boards.now seats.old }
    requires sheets { AreSheets (λ k. no_facts) sheets.old (length boards.now) }
    requires short { All IsShort batch.now }
    requires places { ArePlaces (length batch.now) (length boards.now) places.now }
    ensures { HavePosted (place_part (is_turn workers entered.now.low entered.now.high) batch.now places.now
        (length batch.now)) boards.now seats.old seats.new }
{
    for (index, heard) in batch.iter().enumerate() {
        let mine = is_mine(index, workers, entered.low, entered.high);
        let place = places[index];
        let reception = &heard.reception;
        post_turn(
            &boards[place],
            &mut seats[place],
            &mut sheets[place],
            reception,
            mine,
            place,
            posts,
        );
    }
}
