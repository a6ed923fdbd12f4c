//! Receptions joined by several workers on one board.
ghost use Rattle.std.specs.Prelude.{◌≡◌, ◌+◌, ◌-◌, ◌%◌, ◌<◌, ◌≤◌, ◌&&◌, ◌==◌, All, IfOk, length};
ghost use Rattle.std.specs.Thread.{IsSync, IsSend};
ghost use Rattle.slot_evidence.specs.Facts.{Facts, facts_of, facts_of_all, union};
ghost use Rattle.slot_evidence.specs.Sheet.{IsEnds};
ghost use Rattle.evidence_board.specs.Views.{given_sheet};
ghost use Rattle.receiver_pool.specs.Posting.{MayAllBePosted};
ghost use Rattle.receiver_pool.specs.inside.Turns.{is_turn, part};

use crate::boards::post_sheet;
use crate::gate::{Entered, Gate, enter};
use crate::threads::{parted, threads_for};
use evidence_board::{AllFacts, Allowed, Board, Seat};
use phasing::{Elements, LONGEST};
use slot_evidence::{Reception, Sheet, shown_by};
use std::alloc::{AllocError, Global};
use std::thread::{Threads, join};

/// Takes a reception into a sheet where it is one's turn.
pub(crate) fn take_turn(sheet: &mut Sheet, heard: &Reception, mine: bool)
    requires { length heard.now ≤ LONGEST }
    ensures { (F : Facts) → IsEnds F sheet.old → IsEnds (union F (λ p v. mine && facts_of heard.now p v)) sheet.new }
{
    if mine {
        sheet.meet(&shown_by(heard));
    }
}

/// Whether the reception with this index is the turn of one of the workers from `low` on and below `high`.
pub(crate) fn is_mine(index: usize, workers: u32, low: u32, high: u32) -> bool
    requires { 0 < workers }
    ensures { result ≡ is_turn workers low high index }
{
    let turn = index % workers as usize;
    (low as usize <= turn) & (turn < high as usize)
}

/// The sheet of the receptions of workers who have entered: those whose index leaves the number of one of them when
/// divided by that of all.
fn heard_by(entered: &Entered, list: &[Reception], workers: u32) -> Sheet
    requires workers { 0 < workers }
    requires short { All (λ heard. length heard ≤ LONGEST) list.now }
    ensures { IsEnds (part (is_turn workers entered.now.low entered.now.high) list.now (length list.now)) result }
{
    let mut sheet = Sheet::empty();
    for (index, heard) in list.iter().enumerate() {
        let mine = is_mine(index, workers, entered.low, entered.high);
        take_turn(&mut sheet, heard, mine);
    }
    sheet
}

/// How many elements receptions have together.
fn elements_of(list: &[Reception]) -> usize {
    let mut elements: usize = 0;
    for heard in list {
        elements = elements.saturating_add(heard.count());
    }
    elements
}

/// One thread, for the workers from `low` on and below `high`: they enter the gate, and it joins their receptions, and
/// posts what these showed.
fn work<A: Allowed, G: Gate>(
    board: &Board<A>,
    mut seat: Seat<A>,
    list: &[Reception],
    low: u32,
    high: u32,
    workers: u32,
    gate: &G,
) -> Seat<A>
    requires board { seat.table ≡ board.now }
    requires may { MayAllBePosted A.facts list.now }
    requires workers { 0 < workers }
    requires short { All (λ heard. length heard ≤ LONGEST) list.now }
    ensures board { result.table ≡ board.now }
    ensures share { result.view.share ≡ seat.view.share }
    ensures ends { (F : Facts) → IsEnds F (given_sheet seat.view)
        → IsEnds (union F (part (is_turn workers low high) list.now (length list.now))) (given_sheet result.view) }
{
    let entered = enter(gate, low, high);
    let sheet = heard_by(&entered, list, workers);
    post_sheet(board, &mut seat, &sheet);
    seat
}

/// The workers from `low` on and below `high`, in so many threads by parts of parts, or in one for each of them where
/// that is less.
#[cycle(workers)]
fn fork<A: Allowed, R: Threads + Sync, G: Gate>(
    rt: &R,
    board: &Board<A>,
    seat: Seat<A>,
    list: &[Reception],
    low: u32,
    high: u32,
    workers: u32,
    threads: u32,
    gate: &G,
) -> Seat<A>
    requires sync { IsSync R.row × IsSync A.row × IsSend A.row × IsSync G.row }
    requires board { seat.table ≡ board.now }
    requires may { MayAllBePosted A.facts list.now }
    requires range { (low < high) × (high ≤ workers) }
    requires share { (1 ≤ threads) × (threads ≤ seat.view.share) }
    requires short { All (λ heard. length heard ≤ LONGEST) list.now }
    ensures board { result.table ≡ board.now }
    ensures share { result.view.share ≡ seat.view.share }
    ensures ends { (F : Facts) → IsEnds F (given_sheet seat.view)
        → IsEnds (union F (part (is_turn workers low high) list.now (length list.now))) (given_sheet result.view) }
{
    if threads == 1 || high - low == 1 {
        return work(board, seat, list, low, high, workers, gate);
    }
    let middle = parted(low, high, list.len(), threads);
    let half = threads / 2;
    let more = threads - half;
    let (first, second) = board.split(seat);
    let (first, second) = join(
        rt,
        move || -> Seat<A>
            requires { IsSync R.row × IsSync A.row × IsSend A.row × IsSync G.row × (first.table ≡ board.now)
                × MayAllBePosted A.facts list.now × ((low < middle) × (middle ≤ workers))
                × ((1 ≤ more) × (more ≤ first.view.share)) × All (λ heard. length heard ≤ LONGEST) list.now }
            ensures { (result.table ≡ board.entry.now) × (result.view.share ≡ first.view.share)
                × ((F : Facts) → IsEnds F (given_sheet first.view)
                → IsEnds (union F (part (is_turn workers low middle) list.entry.now (length list.entry.now)))
                (given_sheet result.view)) }
        { fork(rt, board, first, list, low, middle, workers, more, gate) },
        move || -> Seat<A>
            requires { IsSync R.row × IsSync A.row × IsSend A.row × IsSync G.row × (second.table ≡ board.now)
                × MayAllBePosted A.facts list.now × ((middle < high) × (high ≤ workers))
                × ((1 ≤ half) × (half ≤ second.view.share)) × All (λ heard. length heard ≤ LONGEST) list.now }
            ensures { (result.table ≡ board.entry.now) × (result.view.share ≡ second.view.share)
                × ((F : Facts) → IsEnds F (given_sheet second.view)
                → IsEnds (union F (part (is_turn workers middle high) list.entry.now (length list.entry.now)))
                (given_sheet result.view)) }
        { fork(rt, board, second, list, middle, high, workers, half, gate) },
    );
    board.join(first, second)
}

/// Posts through a seat all that receptions show, by one worker or more, who take turns as those of `pool` do: each
/// enters the gate once, first thing. Conditions: all that the receptions show may be posted on the board, and the
/// seat's share is at least the number of the workers.
pub fn post_all<A: Allowed, R: Threads + Sync, G: Gate>(
    rt: &R,
    board: &Board<A>,
    seat: Seat<A>,
    list: &[Reception],
    workers: u32,
    gate: &G,
) -> Seat<A>
    requires sync { IsSync R.row × IsSync A.row × IsSend A.row × IsSync G.row }
    requires board { seat.table ≡ board.now }
    requires may { MayAllBePosted A.facts list.now }
    requires workers { (1 ≤ workers) × (workers ≤ seat.view.share) }
    requires short { All (λ heard. length heard ≤ LONGEST) list.now }
    ensures board { result.table ≡ board.now }
    ensures share { result.view.share ≡ seat.view.share }
    ensures ends { (F : Facts) → IsEnds F (given_sheet seat.view)
        → IsEnds (union F (facts_of_all list.now)) (given_sheet result.view) }
{
    let threads = threads_for(workers, elements_of(list));
    fork(rt, board, seat, list, 0, workers, workers, threads, gate)
}

/// The sheet of all facts that receptions show, joined by 1 to 64 workers: worker w takes those whose index leaves w
/// when divided by their number. Each enters the gate once, first thing. With one worker nothing is forked and no board
/// is made. The error is want of memory.
pub fn pool<R: Threads + Sync, G: Gate>(
    rt: &R,
    alloc: Global,
    list: &[Reception],
    workers: u32,
    gate: &G,
) -> Result<Sheet, AllocError>
    requires workers { (1 ≤ workers) × (workers ≤ 64) }
    requires short { All (λ heard. length heard ≤ LONGEST) list.now }
    ensures { IfOk result (λ sheet. IsEnds (facts_of_all list.now) sheet) }
{
    if workers == 1 {
        let entered = enter(gate, 0, 1);
        return Ok(heard_by(&entered, list, 1));
    }
    let (board, seat) = Board::<AllFacts>::new(alloc)?;
    let seat = post_all(rt, &board, seat, list, workers, gate);
    Ok(board.close(seat))
}
