//! Receptions of many groups read by several workers, with one fork for them all.
ghost use Rattle.std.specs.Prelude.{◌≡◌, ℕ, ◌+◌, ◌-◌, ◌<◌, ◌≤◌, ◌&&◌, ◌==◌, not, All, IfOk, length};
ghost use Rattle.std.specs.Thread.{IsSync, IsSend};
ghost use Rattle.slot_evidence.specs.Facts.{Facts, no_facts, union};
ghost use Rattle.slot_evidence.specs.Sheet.{IsEnds};
ghost use Rattle.receiver_pool.specs.Groups.{facts_of_group, AreSheets, IsShort, ShowsNews};
ghost use Rattle.receiver_pool.specs.inside.Numbers.{AreTurns, KeepNews, NewsPosted, read_by};
ghost use Rattle.receiver_pool.specs.Rows.{Sit};

use crate::at_once::post_turns;
use crate::batch_groups::{Turns, entries_of, number_groups, shown_to, threads_of};
use crate::boards::{blank_sheets, boards_for, close_each, join_each, post_each, split_each};
use crate::gate::{Gate, enter};
use crate::group_entries::{GroupReception, GroupSheet};
use crate::news::{known_of, leave_news};
use crate::posts::Posts;
use crate::threads::parted;
use evidence_board::{AllFacts, Board, Seat, WHOLE};
use slot_evidence::{Sheet, ends_are_kept};
use std::alloc::{AllocError, Global};
use std::thread::{Threads, join};

/// Takes what was shown of a group into the sheet with its number.
pub fn meet_sheet(sheets: &mut [Sheet], number: usize, shown: &Sheet)
    requires { number < length sheets.old }
    ensures { (F : ℕ → Facts) (G : Facts) (n : ℕ) → AreSheets F sheets.old n → IsEnds G shown.now
        → AreSheets (λ k. union (F k) (λ p v. number == k && G p v)) sheets.new n }
{
    sheets[number].meet(shown);
}

/// Takes out the sheet with this number, and leaves that of no facts in its place.
pub fn take_sheet(sheets: &mut [Sheet], number: usize) -> Sheet
    requires { number < length sheets.old }
    ensures taken { (F : ℕ → Facts) (n : ℕ) → AreSheets F sheets.old n → IsEnds (F number) result }
    ensures left { (F : ℕ → Facts) (n : ℕ) → AreSheets F sheets.old n
        → AreSheets (λ k p v. not (number == k) && F k p v) sheets.new n }
{
    let sheet = sheets[number];
    sheets[number] = Sheet::empty();
    sheet
}

/// One thread, for the workers from `low` on and below `high`: they enter the gate, and it joins their receptions, and
/// posts what these showed of each group beside what is known; where somebody looks at the boards, each reception at
/// once.
fn work<G: Gate>(
    alloc: Global,
    boards: &[Board<AllFacts>],
    mut seats: Vec<Seat<AllFacts>>,
    batch: &[GroupReception],
    turns: &Turns,
    low: u32,
    high: u32,
    gate: &G,
) -> Result<Vec<Seat<AllFacts>>, AllocError>
    requires workers { 0 < turns.now.workers }
    requires seats { Sit 1 boards.now seats.items }
    requires turns { AreTurns (length boards.now) batch.now turns.now }
    ensures { IfOk result (λ v. NewsPosted turns.now.known.items (read_by batch.now turns.now low high) boards.now
        seats.items v.items) }
{
    let entered = enter(gate, low, high);
    ends_are_kept();
    if turns.posts.is_watched() {
        let mut sheets = blank_sheets(alloc, boards.len())?;
        post_turns(
            &entered,
            boards,
            &mut seats,
            &mut sheets,
            batch,
            &turns.places,
            &turns.posts,
            turns.workers,
        );
        return Ok(seats);
    }
    let mut sheets = shown_to(&entered, alloc, batch, turns, boards.len())?;
    leave_news(&mut sheets, &turns.known);
    post_each(boards, &mut seats, &sheets);
    Ok(seats)
}

/// The workers from `low` on and below `high`, in so many threads by parts of parts, or in one for each of them where
/// that is less. Each thread has a seat of every board.
#[cycle(groups)]
pub(crate) fn fork_groups<R: Threads + Sync, G: Gate>(
    rt: &R,
    alloc: Global,
    boards: &[Board<AllFacts>],
    mut seats: Vec<Seat<AllFacts>>,
    batch: &[GroupReception],
    turns: &Turns,
    low: u32,
    high: u32,
    threads: u32,
    gate: &G,
) -> Result<Vec<Seat<AllFacts>>, AllocError>
    requires sync { IsSync R.row × IsSync G.row }
    requires range { (low < high) × (high ≤ turns.now.workers) }
    requires threads { 1 ≤ threads }
    requires seats { Sit threads boards.now seats.items }
    requires turns { AreTurns (length boards.now) batch.now turns.now }
    ensures { IfOk result (λ v. NewsPosted turns.now.known.items (read_by batch.now turns.now low high) boards.now
        seats.items v.items) }
{
    if threads == 1 || high - low == 1 {
        return work(alloc, boards, seats, batch, turns, low, high, gate);
    }
    let middle = parted(low, high, batch.len(), threads);
    let half = threads / 2;
    let more = threads - half;
    let others = split_each(alloc, boards, &mut seats)?;
    let (first, second) = join(
        rt,
        move || -> Result<Vec<Seat<AllFacts>>, AllocError>
            requires { IsSync R.row × IsSync G.row × ((low < middle) × (middle ≤ turns.now.workers))
                × (1 ≤ more) × Sit more boards.now seats.items × AreTurns (length boards.now) batch.now turns.now }
            ensures { IfOk result (λ v. NewsPosted turns.entry.now.known.items
                (read_by batch.entry.now turns.entry.now low middle) boards.entry.now seats.items v.items) }
        {
            fork_groups(
                rt, alloc, boards, seats, batch, turns, low, middle, more, gate,
            )
        },
        move || -> Result<Vec<Seat<AllFacts>>, AllocError>
            requires { IsSync R.row × IsSync G.row × ((middle < high) × (high ≤ turns.now.workers))
                × (1 ≤ half) × Sit half boards.now others.items × AreTurns (length boards.now) batch.now turns.now }
            ensures { IfOk result (λ v. NewsPosted turns.entry.now.known.items
                (read_by batch.entry.now turns.entry.now middle high) boards.entry.now others.items v.items) }
        {
            fork_groups(
                rt, alloc, boards, others, batch, turns, middle, high, half, gate,
            )
        },
    );
    ends_are_kept();
    let mut joined = first?;
    join_each(boards, &mut joined, second?);
    Ok(joined)
}

/// All workers. An empty thread comes first where there are more than two threads: a kernel may put the first new
/// thread on the processor of the one that starts it, where it waits until that one has done its own share. The worker
/// started after it then has another processor, and begins at once.
fn start_groups<R: Threads + Sync, G: Gate>(
    rt: &R,
    alloc: Global,
    boards: &[Board<AllFacts>],
    seats: Vec<Seat<AllFacts>>,
    batch: &[GroupReception],
    turns: &Turns,
    threads: u32,
    gate: &G,
) -> Result<Vec<Seat<AllFacts>>, AllocError>
    requires sync { IsSync R.row × IsSync G.row }
    requires workers { 1 ≤ turns.now.workers }
    requires threads { 1 ≤ threads }
    requires seats { Sit threads boards.now seats.items }
    requires turns { AreTurns (length boards.now) batch.now turns.now }
    ensures { IfOk result (λ v. NewsPosted turns.now.known.items (read_by batch.now turns.now 0 turns.now.workers)
        boards.now seats.items v.items) }
{
    let workers = turns.workers;
    if threads <= 2 {
        return fork_groups(
            rt, alloc, boards, seats, batch, turns, 0, workers, threads, gate,
        );
    }
    let (_, joined) = join(
        rt,
        || {},
        move || -> Result<Vec<Seat<AllFacts>>, AllocError>
            requires { IsSync R.row × IsSync G.row × ((1 ≤ workers) × (workers ≤ turns.now.workers))
                × (1 ≤ threads) × Sit threads boards.now seats.items × AreTurns (length boards.now) batch.now turns.now }
            ensures { IfOk result (λ v. NewsPosted turns.entry.now.known.items
                (read_by batch.entry.now turns.entry.now 0 workers) boards.entry.now seats.items v.items) }
        {
            fork_groups(
                rt, alloc, boards, seats, batch, turns, 0, workers, threads, gate,
            )
        },
    );
    joined
}

/// What the batch shows of each of so many groups. With one worker there is no board, and nothing is forked.
fn share_groups<R: Threads + Sync, G: Gate>(
    rt: &R,
    alloc: Global,
    batch: &[GroupReception],
    turns: &Turns,
    count: usize,
    gate: &G,
) -> Result<Vec<Sheet>, AllocError>
    requires workers { (1 ≤ turns.now.workers) × (turns.now.workers ≤ 64) }
    requires turns { AreTurns count batch.now turns.now }
    ensures { IfOk result (λ v. KeepNews turns.now.known.items (read_by batch.now turns.now 0 turns.now.workers) v.items
        count) }
{
    ends_are_kept();
    if turns.workers == 1 {
        let entered = enter(gate, 0, 1);
        return shown_to(&entered, alloc, batch, turns, count);
    }
    let threads = threads_of(batch, turns.workers);
    let (boards, seats) = boards_for(alloc, count)?;
    let seats = start_groups(rt, alloc, &boards, seats, batch, turns, threads, gate)?;
    close_each(alloc, boards, seats)
}

/// What a batch of receptions shows: one entry for each group that it names, in the order in which it first names them,
/// with what it showed of the group beside what is known of it, which is the sheet with the group's number: nothing
/// where there is none. 1 to 64 workers read them with one fork: worker w takes the receptions whose index leaves w
/// when divided by their number. Each enters the gate once, first thing, and posts what it read of each group on that
/// group's board, but where this shows nothing that isn't known. With one worker nothing is forked, and there is no
/// board. The error is want of memory.
pub fn pool_groups<R: Threads + Sync, G: Gate>(
    rt: &R,
    alloc: Global,
    known: &[Sheet],
    batch: &[GroupReception],
    workers: u32,
    gate: &G,
) -> Result<Vec<GroupSheet>, AllocError>
    requires workers { (1 ≤ workers) × (workers ≤ 64) }
    requires short { All IsShort batch.now }
    ensures { IfOk result (λ v. ShowsNews known.now (facts_of_group batch.now) batch.now v.items) }
{
    let (groups, places) = number_groups(alloc, batch)?;
    let turns = Turns {
        places,
        workers,
        posts: Posts::none(alloc),
        known: known_of(alloc, known, &groups)?,
    };
    ends_are_kept();
    let sheets = share_groups(rt, alloc, batch, &turns, groups.len(), gate)?;
    entries_of(alloc, &groups, &sheets)
}
