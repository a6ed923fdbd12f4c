//! A row of boards, one for each group of a batch, and a seat of each.
ghost use Rattle.std.specs.Prelude.{◌≡◌, ◌≢◌, ℕ, ◌+◌, ◌-◌, ◌/◌, ◌<◌, true, IfOk, length, slice_index_or, []};
ghost use Rattle.slot_evidence.specs.Facts.{Facts, no_facts, union};
ghost use Rattle.slot_evidence.specs.Sheet.{IsEnds, seen_at};
ghost use Rattle.slot_evidence.specs.Allowed.{IsAllowed, OnlyAllowed};
ghost use Rattle.evidence_board.specs.Looks.{IsLooked};
ghost use Rattle.evidence_board.specs.Rule.{IsWithin};
ghost use Rattle.evidence_board.specs.Views.{given_sheet, place_at, reach_of, seen_sheet};
ghost use Rattle.receiver_pool.specs.Groups.{AreSheets};
ghost use Rattle.receiver_pool.specs.Rows.{AreAsBefore, AreSeats, HaveSeenNothing, Sit, seat_at};

use evidence_board::{AllFacts, Allowed, Board, Seat, WHOLE, all_facts_may_be_posted};
use slot_evidence::{Sheet, sheet_is_lawful};
use std::alloc::{AllocError, Global};

/// So many boards, and the whole seat of each, which has seen nothing.
pub(crate) fn boards_for(
    alloc: Global,
    count: usize,
) -> Result<(Vec<Board<AllFacts>>, Vec<Seat<AllFacts>>), AllocError>
    ensures count { IfOk result (λ made. length made.0.items ≡ count) }
    ensures seats { IfOk result (λ made. AreSeats WHOLE (λ k. no_facts) made.0.items made.1.items) }
    ensures unseen { IfOk result (λ made. HaveSeenNothing count made.1.items) }
{
    let mut boards = Vec::with_capacity(alloc, count)?;
    let mut seats = Vec::with_capacity(alloc, count)?;
    for _ in 0..count {
        let (board, seat) = Board::new(alloc)?;
        boards.push_reserved(board);
        seats.push_reserved(seat);
    }
    Ok((boards, seats))
}

/// Posts a sheet, which may be posted there, through a seat of its board. One that shows nothing is not posted.
pub(crate) fn post_sheet<A: Allowed>(board: &Board<A>, seat: &mut Seat<A>, sheet: &Sheet)
    requires board { seat.old.table ≡ board.now }
    requires allowed { OnlyAllowed A.facts sheet.now }
    ensures board { seat.new.table ≡ board.now }
    ensures share { seat.new.view.share ≡ seat.old.view.share }
    ensures ends { (F G : Facts) → IsEnds F (given_sheet seat.old.view) → IsEnds G sheet.now
        → IsEnds (union F G) (given_sheet seat.new.view) }
{
    sheet_is_lawful(sheet);
    if *sheet == Sheet::empty() {
        return;
    }
    board.admit_at(seat, sheet);
}

/// Posts the sheet of each group on its board.
pub(crate) fn post_each(boards: &[Board<AllFacts>], seats: &mut [Seat<AllFacts>], sheets: &[Sheet])
    requires seats { Sit 1 boards.now seats.old }
    requires sheets { (G : ℕ → Facts) × AreSheets G sheets.now (length boards.now) }
    ensures { (share : ℕ) (F G : ℕ → Facts) → AreSeats share F boards.now seats.old
        → AreSheets G sheets.now (length boards.now)
        → AreSeats share (λ k. union (F k) (G k)) boards.now seats.new }
{
    all_facts_may_be_posted();
    for (k, board) in boards.iter().enumerate() {
        let sheet = &sheets[k];
        sheet_is_lawful(sheet);
        post_sheet(board, &mut seats[k], sheet);
    }
}

/// Splits each seat, which keeps the one half. The other half has seen what the seat had.
pub(crate) fn split_each(
    alloc: Global,
    boards: &[Board<AllFacts>],
    seats: &mut [Seat<AllFacts>],
) -> Result<Vec<Seat<AllFacts>>, AllocError>
    requires { Sit 2 boards.now seats.old }
    ensures halves { IfOk result (λ v. (share : ℕ) (F : ℕ → Facts) → AreSeats share F boards.now seats.old
        → AreSeats (share - share / 2) F boards.now seats.new × AreSeats (share / 2) F boards.now v.items) }
    ensures unseen { IfOk result (λ v. HaveSeenNothing (length boards.now) seats.old
        → HaveSeenNothing (length boards.now) v.items) }
{
    let mut others = Vec::with_capacity(alloc, boards.len())?;
    for (k, board) in boards.iter().enumerate() {
        others.push_reserved(board.split_off(&mut seats[k]));
    }
    Ok(others)
}

/// Joins another seat of each board into the first, which then saw what that one saw.
pub(crate) fn join_each(
    boards: &[Board<AllFacts>],
    seats: &mut [Seat<AllFacts>],
    mut others: Vec<Seat<AllFacts>>,
)
    requires seats { Sit 1 boards.now seats.old }
    requires others { Sit 1 boards.now others.items }
    ensures seats { (share other : ℕ) (F G : ℕ → Facts) → AreSeats share F boards.now seats.old
        → AreSeats other G boards.now others.items
        → AreSeats (share + other) (λ k. union (F k) (G k)) boards.now seats.new }
    ensures seen { (k : ℕ) → k < length boards.now → (p : ℕ) → p < 64
        → IsWithin (place_at (seat_at others.items k).view p).seen (place_at (seat_at seats.new k).view p).seen }
{
    while let Some(other) = others.pop() {
        let k = others.len();
        boards[k].join_into(&mut seats[k], other);
    }
}

/// Looks at the board with this number through its seat, as `Board::look_at` does: what the seat then saw of each
/// place. The other seats stay as they are.
pub fn look_at<A: Allowed>(boards: &[Board<A>], seats: &mut [Seat<A>], number: usize) -> Sheet
    requires seats { Sit 1 boards.now seats.old }
    requires number { number < length boards.now }
    ensures kept { AreAsBefore boards.now seats.old seats.new }
    ensures others { (k : ℕ) → k ≢ number → seat_at seats.new k ≡ seat_at seats.old k }
    ensures places { (p : ℕ) → p < 64
        → IsLooked A.facts p (place_at (seat_at seats.old number).view p) (place_at (seat_at seats.new number).view p) }
    ensures sheet { result ≡ seen_sheet (seat_at seats.new number).view }
    ensures allowed { OnlyAllowed A.facts result }
    ensures exact { (F : Facts) → ((p v : ℕ) → IsAllowed A.facts p v → F p v ≡ true)
        → IsEnds F (given_sheet (seat_at seats.old number).view) → IsEnds F result }
{
    boards[number].look_at(&mut seats[number])
}

/// Closes each board with its whole seat: the sheets of what was posted on them, and no seat saw more.
pub(crate) fn close_each(
    alloc: Global,
    boards: Vec<Board<AllFacts>>,
    seats: Vec<Seat<AllFacts>>,
) -> Result<Vec<Sheet>, AllocError>
    requires { (F : ℕ → Facts) × AreSeats WHOLE F boards.items seats.items }
    ensures sheets { IfOk result (λ v. (F : ℕ → Facts) → AreSeats WHOLE F boards.items seats.items
        → AreSheets F v.items (length boards.items)) }
    ensures seen { IfOk result (λ v. (k : ℕ) → k < length boards.items → (p : ℕ) → p < 64
        → IsWithin (place_at (seat_at seats.items k).view p).seen (reach_of (seen_at (slice_index_or v.items k []) p))) }
{
    let mut sheets = blank_sheets(alloc, boards.len())?;
    close_into(&mut sheets, boards, seats);
    Ok(sheets)
}

/// The same into sheets that are there.
fn close_into(
    sheets: &mut [Sheet],
    mut boards: Vec<Board<AllFacts>>,
    mut seats: Vec<Seat<AllFacts>>,
)
    requires seats { (F : ℕ → Facts) × AreSeats WHOLE F boards.items seats.items }
    requires sheets { length sheets.old ≡ length boards.items }
    ensures sheets { (F : ℕ → Facts) → AreSeats WHOLE F boards.items seats.items
        → AreSheets F sheets.new (length boards.items) }
    ensures seen { (k : ℕ) → k < length boards.items → (p : ℕ) → p < 64
        → IsWithin (place_at (seat_at seats.items k).view p).seen (reach_of (seen_at (slice_index_or sheets.new k []) p)) }
{
    while let Some(board) = boards.pop() {
        let Some(seat) = seats.pop() else {
            return;
        };
        sheets[boards.len()] = board.close(seat);
    }
}

/// The sheets of so many groups that showed nothing.
pub(crate) fn blank_sheets(alloc: Global, count: usize) -> Result<Vec<Sheet>, AllocError>
    ensures { IfOk result (λ v. AreSheets (λ k. no_facts) v.items count) }
{
    let mut sheets = Vec::with_capacity(alloc, count)?;
    for _ in 0..count {
        sheets.push_reserved(Sheet::empty());
    }
    Ok(sheets)
}
