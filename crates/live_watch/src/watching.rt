//! A watch: workers post what receptions show on a board, and a watcher beside them polls it.
ghost use Rattle.std.specs.Prelude.{◌≡◌, ◌↔◌, ℕ, ◌+◌, ◌≤◌, true, All, None, Some, IfOk, length};
ghost use Rattle.call_values.specs.declared.calls.Call.{Call as Sent};
ghost use Rattle.std.specs.Thread.{IsSync, IsSend};
ghost use Rattle.slot_evidence.specs.Facts.{Facts, facts_of_all, union};
ghost use Rattle.slot_evidence.specs.Sheet.{IsEnds};
ghost use Rattle.receiver_pool.specs.Posting.{MayAllBePosted};
ghost use Rattle.evidence_board.specs.Views.{given_sheet, seen_sheet};
ghost use Rattle.slot_evidence.specs.Allowed.{IsAllowed};
ghost use Rattle.live_watch.specs.Told.{IsWatched};
ghost use Rattle.live_watch.specs.inside.Known.{known_facts, AreAllAllowed};
ghost use Rattle.live_watch.specs.Watching.{Reports};
ghost use Rattle.live_watch.specs.inside.Posted.{IsToldOn, IsUnreported};

use crate::laws::told_calls;
use crate::watchers::Watcher;
use call_values::Call;
use evidence_board::{Allowed, Board, Seat, WHOLE, all_facts_may_be_posted};
use phasing::LONGEST;
use receiver_pool::{Gate, post_all};
use slot_evidence::{Reception, Sheet, ends_are_kept, sheet_has_facts, sheet_is_lawful};
use slot_join::alike_facts_have_one_answer;
use std::alloc::{AllocError, Global};
use std::marker::Brand;
use std::thread::{Threads, join};

/// A watcher polls at most so often while workers post.
const MOST_POLLS: u32 = 64;

/// Polls until a call is told, at most 64 times. Where none is told, the last poll showed none.
fn poll_meanwhile<A: Allowed>(watcher: Watcher<A>, board: &Board<A>) -> Watcher<A>
    requires { watcher.seat.table ≡ board.now }
    ensures board { result.seat.table ≡ board.now }
    ensures share { result.seat.view.share ≡ watcher.seat.view.share }
    ensures given { given_sheet result.seat.view ≡ given_sheet watcher.seat.view }
    ensures told { (call : Sent) → watcher.told ≡ Some call → result.told ≡ Some call }
    ensures untold { result.told ≡ None → (call : Sent) → Reports (seen_sheet result.seat.view) call → ⊥ }
{
    let (mut watcher, _news) = watcher.poll(board);
    for _ in 1..MOST_POLLS {
        if watcher.told().is_some() {
            return watcher;
        }
        let (next, _news) = watcher.poll(board);
        watcher = next;
    }
    watcher
}

/// The workers post beside a watcher, which enters the gate with their number first thing.
fn post_beside<A: Allowed, R: Threads + Sync, G: Gate>(
    rt: &R,
    board: &Board<A>,
    watcher: Watcher<A>,
    seat: Seat<A>,
    list: &[Reception],
    workers: u32,
    gate: &G,
) -> (Watcher<A>, Seat<A>)
    requires sync { IsSync R.row × IsSync A.row × IsSend A.row × IsSync G.row }
    requires board { (watcher.seat.table ≡ board.now) × (seat.table ≡ board.now) }
    requires may { MayAllBePosted A.facts list.now }
    requires workers { (1 ≤ workers) × (workers ≤ seat.view.share) }
    requires short { All (λ heard. length heard ≤ LONGEST) list.now }
    ensures board { (result.0.seat.table ≡ board.now) × (result.1.table ≡ board.now) }
    ensures share { (result.0.seat.view.share ≡ watcher.seat.view.share) × (result.1.view.share ≡ seat.view.share) }
    ensures given { given_sheet result.0.seat.view ≡ given_sheet watcher.seat.view }
    ensures told { (call : Sent) → watcher.told ≡ Some call → result.0.told ≡ Some call }
    ensures untold { result.0.told ≡ None → (call : Sent) → Reports (seen_sheet result.0.seat.view) call → ⊥ }
    ensures ends { (F : Facts) → IsEnds F (given_sheet seat.view)
        → IsEnds (union F (facts_of_all list.now)) (given_sheet result.1.view) }
{
    join(
        rt,
        move || -> Watcher<A>
            requires { IsSync G.row × (watcher.seat.table ≡ board.now) }
            ensures { (result.seat.table ≡ board.entry.now) × (result.seat.view.share ≡ watcher.seat.view.share)
                × (given_sheet result.seat.view ≡ given_sheet watcher.seat.view)
                × ((call : Sent) → watcher.told ≡ Some call → result.told ≡ Some call)
                × (result.told ≡ None → (call : Sent) → Reports (seen_sheet result.seat.view) call → ⊥) }
        {
            gate.enter(workers);
            poll_meanwhile(watcher, board)
        },
        move || -> Seat<A>
            requires { IsSync R.row × IsSync A.row × IsSend A.row × IsSync G.row × (seat.table ≡ board.now)
                × MayAllBePosted A.facts list.now × ((1 ≤ workers) × (workers ≤ seat.view.share))
                × All (λ heard. length heard ≤ LONGEST) list.now }
            ensures { (result.table ≡ board.entry.now) × (result.view.share ≡ seat.view.share)
                × ((F : Facts) → IsEnds F (given_sheet seat.view)
                → IsEnds (union F (facts_of_all list.entry.now)) (given_sheet result.view)) }
        { post_all(rt, board, seat, list, workers, gate) },
    )
}

/// Polls once more where no call was told.
fn poll_last<A: Allowed>(watcher: Watcher<A>, board: &Board<A>) -> Watcher<A>
    requires { watcher.seat.table ≡ board.now }
    ensures board { result.seat.table ≡ board.now }
    ensures share { result.seat.view.share ≡ watcher.seat.view.share }
    ensures given { given_sheet result.seat.view ≡ given_sheet watcher.seat.view }
    ensures told { (call : Sent) → watcher.told ≡ Some call → result.told ≡ Some call }
    ensures last { (F : Facts) → ((p v : ℕ) → IsAllowed A.facts p v → F p v ≡ true)
        → IsEnds F (given_sheet watcher.seat.view) → IsUnreported F result.told }
{
    if watcher.told().is_some() {
        return watcher;
    }
    alike_facts_have_one_answer();
    ends_are_kept();
    let (watcher, _news) = watcher.poll(board);
    watcher
}

/// Ends a watch after its workers: the sheet of all that was posted, and the call that was told. A call that the
/// watcher told before stays; where it told none, it polls once more.
fn end_watch<A: Allowed>(
    board: Board<A>,
    watcher: Watcher<A>,
    seat: Seat<A>,
) -> (Sheet, Option<Call>)
    requires board { (watcher.seat.table ≡ board) × (seat.table ≡ board) }
    requires whole { watcher.seat.view.share + seat.view.share ≡ WHOLE }
    ensures sheet { (F G : Facts) → IsEnds F (given_sheet watcher.seat.view) → IsEnds G (given_sheet seat.view)
        → IsEnds (union F G) result.0 }
    ensures told { (call : Sent) → watcher.told ≡ Some call → result.1 ≡ Some call }
    ensures posted { IsToldOn A.facts result.1 }
    ensures last { (F : Facts) → ((p v : ℕ) → IsAllowed A.facts p v → F p v ≡ true) → IsEnds F result.0
        → IsUnreported F result.1 }
{
    let watcher = poll_last(watcher.with_seat(&board, seat), &board);
    let told = watcher.told();
    (board.close(watcher.leave()), told)
}

/// `watch` on a board on which the facts of the sheet and of the receptions, and no others, may be posted.
fn watch_on<A: Allowed, R: Threads + Sync, G: Gate>(
    rt: &R,
    alloc: Global,
    so_far: &Sheet,
    list: &[Reception],
    workers: u32,
    gate: &G,
) -> Result<(Sheet, Option<Call>), AllocError>
    requires known { AreAllAllowed A.facts (known_facts so_far.now list.now) }
    requires workers { (1 ≤ workers) × (workers ≤ 64) }
    requires short { All (λ heard. length heard ≤ LONGEST) list.now }
    ensures ends { IfOk result (λ watched. (F : Facts) → IsEnds F so_far.now
        → IsEnds (union F (facts_of_all list.now)) watched.0) }
    ensures told { IfOk result (λ watched. (F : Facts) → IsEnds F so_far.now
        → IsWatched (union F (facts_of_all list.now)) watched.1) }
{
    told_calls();
    alike_facts_have_one_answer();
    ends_are_kept();
    sheet_has_facts(so_far);
    let (board, seat) = Board::<A>::new(alloc)?;
    let seat = board.admit(seat, so_far);
    let (seat, other) = board.split(seat);
    let (watcher, seat) = post_beside(rt, &board, Watcher::new(other), seat, list, workers, gate);
    Ok(end_watch(board, watcher, seat))
}

/// Joins receptions as `pool` does, on a board that begins with a sheet. A watcher polls the board beside 1 to 64
/// workers: until it has told a call, at most 64 times, and once more after them where it has told none. It answers the
/// sheet of all facts, and the call that was told, each of whose symbols was shown; none only where the facts report no
/// call. The watcher enters the gate once, before its first poll, with the number `workers`. The error is want of
/// memory.
pub fn watch<R: Threads + Sync, G: Gate>(
    rt: &R,
    alloc: Global,
    so_far: &Sheet,
    list: &[Reception],
    workers: u32,
    gate: &G,
) -> Result<(Sheet, Option<Call>), AllocError>
    requires workers { (1 ≤ workers) × (workers ≤ 64) }
    requires short { All (λ heard. length heard ≤ LONGEST) list.now }
    ensures ends { IfOk result (λ watched. (F : Facts) → IsEnds F so_far.now
        → IsEnds (union F (facts_of_all list.now)) watched.0) }
    ensures told { IfOk result (λ watched. (F : Facts) → IsEnds F so_far.now
        → IsWatched (union F (facts_of_all list.now)) watched.1) }
{
    all_facts_may_be_posted();
    sheet_is_lawful(so_far);
    watch_on::<Brand, R, G>(rt, alloc, so_far, list, workers, gate)
}
