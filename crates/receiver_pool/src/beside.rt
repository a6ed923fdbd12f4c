//! Receptions of many groups read by several workers, while somebody beside them looks at their boards.
ghost use Rattle.std.specs.Prelude.{◌≡◌, ℕ, ◌+◌, ◌/◌, ◌<◌, ◌≤◌, All, IfOk, List, [], length, slice_index_or};
ghost use Rattle.std.specs.Thread.{IsSync, IsSend};
ghost use Rattle.slot_evidence.specs.declared.places.Seen.{Seen};
ghost use Rattle.slot_evidence.specs.Facts.{Facts, no_facts, union};
ghost use Rattle.slot_evidence.specs.Sheet.{seen_at};
ghost use Rattle.evidence_board.specs.Rule.{IsWithin};
ghost use Rattle.evidence_board.specs.Seats.{Held};
ghost use Rattle.evidence_board.specs.Views.{place_at, reach_of};
ghost use Rattle.receiver_pool.specs.Groups.{facts_of_group, AreSheets, IsShort, Shows};
ghost use Rattle.receiver_pool.specs.inside.Numbers.{AreTurns, NewsPosted, read_by};
ghost use Rattle.receiver_pool.specs.Rows.{AreAsBefore, AreSeats, HaveSeenNothing, Sit, seat_at};
ghost use Rattle.receiver_pool.specs.Seeing.{HasGoneRound};

use crate::batch_groups::{Turns, entries_of, number_groups, threads_of};
use crate::batches::fork_groups;
use crate::boards::{boards_for, close_each, join_each, split_each};
use crate::gate::Gate;
use crate::group_entries::{GroupReception, GroupSheet};
use crate::posts::Posts;
use evidence_board::{AllFacts, Board, Seat, WHOLE};
use slot_evidence::{Sheet, ends_are_kept};
use std::alloc::{AllocError, Global};
use std::thread::{Threads, join};

/// Somebody beside the workers of a batch, who looks at their boards while they post.
pub trait Beside: Drop + Send {
    /// What it has seen: of what it was and what it is, what was known of the groups by their numbers, the groups of
    /// the boards, and the seats.
    ghost has_seen: { Self → Self → List (List Seen) → List ℕ → List Held → Type 0 };

    /// Goes round the boards, with a seat of each: the k-th board is that of the k-th group. What was known of a group
    /// before the batch is the sheet with the group's number, and `posts` says on which board there is something new,
    /// and whether all was posted. The seats have seen nothing. Each keeps its board, its share and what was posted
    /// through it.
    fn go_round(
        &mut self,
        known: &[Sheet],
        groups: &[usize],
        boards: &[Board<AllFacts>],
        seats: &mut [Seat<AllFacts>],
        posts: &Posts,
    )
        requires seats { Sit 1 boards.now seats.old }
        requires unseen { HaveSeenNothing (length boards.now) seats.old }
        requires count { length boards.now ≡ length groups.now }
        ensures kept { AreAsBefore boards.now seats.old seats.new }
        ensures seen { has_seen self.old self.new known.now groups.now seats.new };
}

/// What is done beside the workers, after the gate, which is entered with their number.
fn go_beside<G: Gate, B: Beside>(
    known: &[Sheet],
    groups: &[usize],
    boards: &[Board<AllFacts>],
    mut seats: Vec<Seat<AllFacts>>,
    turns: &Turns,
    gate: &G,
    mut beside: B,
) -> (B, Vec<Seat<AllFacts>>)
    requires seats { Sit 1 boards.now seats.items }
    requires unseen { HaveSeenNothing (length boards.now) seats.items }
    requires count { length boards.now ≡ length groups.now }
    ensures kept { AreAsBefore boards.now seats.items result.1.items }
    ensures seen { B.has_seen beside result.0 known.now groups.now result.1.items }
{
    gate.enter(turns.workers);
    beside.go_round(known, groups, boards, &mut seats, &turns.posts);
    (beside, seats)
}

/// All workers, and somebody beside them, each with a seat of every board. The workers post all that they read.
fn fork_beside<R: Threads + Sync, G: Gate, B: Beside>(
    rt: &R,
    alloc: Global,
    known: &[Sheet],
    groups: &[usize],
    boards: &[Board<AllFacts>],
    seats: Vec<Seat<AllFacts>>,
    others: Vec<Seat<AllFacts>>,
    batch: &[GroupReception],
    turns: &Turns,
    threads: u32,
    gate: &G,
    beside: B,
) -> Result<(B, Vec<Seat<AllFacts>>), AllocError>
    requires sync { IsSync R.row × IsSync G.row × IsSend B.row }
    requires workers { 1 ≤ turns.now.workers }
    requires threads { 1 ≤ threads }
    requires seats { Sit threads boards.now seats.items }
    requires others { Sit 1 boards.now others.items }
    requires unseen { HaveSeenNothing (length boards.now) others.items }
    requires turns { AreTurns (length boards.now) batch.now turns.now }
    requires all { turns.now.known.items ≡ [] }
    requires count { length boards.now ≡ length groups.now }
    ensures seats { IfOk result (λ v. (share other : ℕ) (F H : ℕ → Facts) → AreSeats share F boards.now seats.items
        → AreSeats other H boards.now others.items
        → AreSeats (share + other) (λ k. union (union (F k) (read_by batch.now turns.now 0 turns.now.workers k)) (H k))
        boards.now v.1.items) }
    ensures seen { IfOk result (λ v. (gone : List Held) × (length gone ≡ length boards.now)
        × B.has_seen beside v.0 known.now groups.now gone
        × ((k : ℕ) → k < length boards.now → (p : ℕ) → p < 64
        → IsWithin (place_at (seat_at gone k).view p).seen (place_at (seat_at v.1.items k).view p).seen)) }
{
    ends_are_kept();
    let workers = turns.workers;
    let (first, joined) = join(
        rt,
        move || -> (B, Vec<Seat<AllFacts>>)
            requires { IsSync G.row × IsSend B.row × Sit 1 boards.now others.items
                × HaveSeenNothing (length boards.now) others.items × (length boards.now ≡ length groups.now) }
            ensures { AreAsBefore boards.entry.now others.items result.1.items
                × B.has_seen beside result.0 known.entry.now groups.entry.now result.1.items }
        { go_beside(known, groups, boards, others, turns, gate, beside) },
        move || -> Result<Vec<Seat<AllFacts>>, AllocError>
            requires { IsSync R.row × IsSync G.row × ((1 ≤ workers) × (workers ≤ turns.now.workers))
                × (1 ≤ threads) × Sit threads boards.now seats.items × AreTurns (length boards.now) batch.now turns.now }
            ensures { IfOk result (λ v. NewsPosted turns.entry.now.known.items
                (read_by batch.entry.now turns.entry.now 0 workers) boards.entry.now seats.items v.items) }
        {
            let joined = fork_groups(
                rt, alloc, boards, seats, batch, turns, 0, workers, threads, gate,
            );
            turns.posts.end();
            joined
        },
    );
    let (beside, others) = first;
    let mut joined = joined?;
    join_each(boards, &mut joined, others);
    Ok((beside, joined))
}

/// Two seats of each board, of its whole seat, which has seen nothing. Nor has the second.
fn halved(
    alloc: Global,
    boards: &[Board<AllFacts>],
    mut seats: Vec<Seat<AllFacts>>,
) -> Result<(Vec<Seat<AllFacts>>, Vec<Seat<AllFacts>>), AllocError>
    requires seats { AreSeats WHOLE (λ k. no_facts) boards.now seats.items }
    requires unseen { HaveSeenNothing (length boards.now) seats.items }
    ensures halves { IfOk result (λ v. AreSeats (WHOLE / 2) (λ k. no_facts) boards.now v.0.items
        × AreSeats (WHOLE / 2) (λ k. no_facts) boards.now v.1.items) }
    ensures unseen { IfOk result (λ v. HaveSeenNothing (length boards.now) v.1.items) }
{
    let others = split_each(alloc, boards, &mut seats)?;
    Ok((seats, others))
}

/// What the batch shows of each of its groups, and what somebody brings who went round their boards.
fn share_beside<R: Threads + Sync, G: Gate, B: Beside>(
    rt: &R,
    alloc: Global,
    known: &[Sheet],
    groups: &[usize],
    batch: &[GroupReception],
    turns: &Turns,
    gate: &G,
    beside: B,
) -> Result<(Vec<Sheet>, B), AllocError>
    requires workers { (1 ≤ turns.now.workers) × (turns.now.workers ≤ 64) }
    requires turns { AreTurns (length groups.now) batch.now turns.now }
    requires all { turns.now.known.items ≡ [] }
    ensures sheets { IfOk result (λ v. AreSheets (read_by batch.now turns.now 0 turns.now.workers) v.0.items
        (length groups.now)) }
    ensures seen { IfOk result (λ v. (gone : List Held) × (length gone ≡ length groups.now)
        × B.has_seen beside v.1 known.now groups.now gone
        × ((k : ℕ) → k < length groups.now → (p : ℕ) → p < 64
        → IsWithin (place_at (seat_at gone k).view p).seen (reach_of (seen_at (slice_index_or v.0.items k []) p)))) }
{
    let threads = threads_of(batch, turns.workers);
    let (boards, seats) = boards_for(alloc, groups.len())?;
    let (seats, others) = halved(alloc, &boards, seats)?;
    let (beside, joined) = fork_beside(
        rt, alloc, known, groups, &boards, seats, others, batch, turns, threads, gate, beside,
    )?;
    let sheets = close_each(alloc, boards, joined)?;
    Ok((sheets, beside))
}

/// What a batch of receptions shows, as `pool_groups` says it, while somebody looks at the boards on which its workers
/// post. This one has a thread beside theirs, also where one worker works alone; all are made by one fork. Each
/// reception is posted as soon as it was read, and one that shows nothing beyond what was known of its group isn't new
/// to this one. After the gate, which is entered once with the number `workers`, this one goes round the boards with
/// what was known of the groups before. The answer is an entry for each group that the batch names, and the one who
/// looked, whose seats saw no more than the batch shows of their groups. The error is want of memory.
pub fn pool_groups_beside<R: Threads + Sync, G: Gate, B: Beside>(
    rt: &R,
    alloc: Global,
    known: &[Sheet],
    batch: &[GroupReception],
    workers: u32,
    gate: &G,
    beside: B,
) -> Result<(Vec<GroupSheet>, B), AllocError>
    requires workers { (1 ≤ workers) × (workers ≤ 64) }
    requires short { All IsShort batch.now }
    ensures shown { IfOk result (λ v. Shows (facts_of_group batch.now) batch.now v.0.items) }
    ensures seen { IfOk result (λ v. HasGoneRound batch.now (B.has_seen beside v.1 known.now)) }
{
    let (groups, places) = number_groups(alloc, batch)?;
    let turns = Turns {
        places,
        workers,
        posts: Posts::of(alloc, known, &groups)?,
        known: Vec::new(alloc),
    };
    let (sheets, beside) = share_beside(rt, alloc, known, &groups, batch, &turns, gate, beside)?;
    let entries = entries_of(alloc, &groups, &sheets)?;
    Ok((entries, beside))
}
