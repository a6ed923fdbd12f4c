//! Watchers beside workers.
ghost use Rattle.std.specs.Prelude.{◌≡◌, ◌≤◌, All, length};
ghost use Rattle.slot_evidence.specs.Allowed.{OnlyAllowed};
ghost use Rattle.evidence_board.specs.Facts.{all_facts};
ghost use Rattle.receiver_pool.specs.Groups.{IsShort};

use crate::tests::board::{
    are_all_short, are_short, one_by_one, one_that_differs, sheet_of_group, two_groups,
    two_receptions,
};
use call_grammar::spell;
use call_values::Call;
use dsc_symbols::worked::ALERT;
use evidence_board::{AllFacts, Board, all_facts_may_be_posted};
use live_watch::{BatchWatcher, News, Watcher, watch, watch_batch};
use phasing::LONGEST;
use receiver_pool::{Gate, GroupReception, Open};
use slot_evidence::{Reception, Seen, Sheet, sheet_is_lawful};
use std::alloc::{AllocError, Global};
use std::sync::atomic::{AtomicBool, Ordering};
use std::test::Fail;
use std::thread::{Threads, join, yield_now};

/// Waits until a flag is set, for at most 100,000,000 turns, and answers whether it is.
fn wait_for(flag: &AtomicBool) -> bool {
    for turn in 0..100_000_000u32 {
        if flag.load(Ordering::SeqCst) {
            return true;
        }
        if turn % 64 == 0 {
            yield_now();
        }
    }
    false
}

/// Polls for at most 1,000,000 turns, and sets the flag as soon as a call is told.
fn poll_until_told(
    mut watcher: Watcher<AllFacts>,
    board: &Board<AllFacts>,
    flag: &AtomicBool,
) -> Option<Call>
    requires { watcher.seat.table ≡ board.now }
{
    for turn in 0..1_000_000u32 {
        let (next, news) = watcher.poll(board);
        watcher = next;
        if let News::New(call) = news {
            flag.store(true, Ordering::SeqCst);
            return Some(call);
        }
        if turn % 64 == 0 {
            yield_now();
        }
    }
    None
}

/// Two threads on one board: the poster admits a sheet, and waits until the watcher has told a call. It answers whether
/// it saw that, and whether the call is the worked alert.
fn told_while_posting<R: Threads + Sync>(
    rt: &R,
    alloc: Global,
    sheet: &Sheet,
) -> Result<(bool, bool), AllocError>
    requires { OnlyAllowed all_facts sheet.now }
{
    let (board, seat) = Board::<AllFacts>::new(alloc)?;
    let (one, other) = board.split(seat);
    let shared = &board;
    let flag = AtomicBool::new(false);
    let told = &flag;
    let (seen, told) = join(
        rt,
        move || -> bool
            requires { (one.table ≡ shared.now) × OnlyAllowed all_facts sheet.now }
        {
            let _seat = shared.admit(one, sheet);
            wait_for(told)
        },
        move || -> Option<Call>
            requires { other.table ≡ shared.now }
        { poll_until_told(Watcher::new(other), shared, told) },
    );
    Ok((seen, is_alert(told)))
}

/// Whether the worked alert was told.
fn is_alert(told: Option<Call>) -> bool {
    match told {
        Some(call) => spell(&call).as_slice() == ALERT.as_slice(),
        None => false,
    }
}

/// The sheet of a watch, and whether it told the worked alert.
fn watch_for_alert<R: Threads + Sync, G: Gate>(
    rt: &R,
    alloc: Global,
    so_far: &Sheet,
    list: &[Reception],
    workers: u32,
    gate: &G,
) -> Result<(Sheet, bool), AllocError>
    requires workers { (1 ≤ workers) × (workers ≤ 64) }
    requires short { All (λ heard. length heard ≤ LONGEST) list.now }
{
    let (sheet, told) = watch(rt, alloc, so_far, list, workers, gate)?;
    Ok((sheet, is_alert(told)))
}

#[test]
fn a_call_is_told_while_its_poster_waits(rt: HostRuntime) -> Result<(), Fail> {
    let list = two_receptions(rt.alloc())?;
    assert!(rt; are_short(&list));
    let sheet = one_by_one(&list);
    sheet_is_lawful(&sheet);
    all_facts_may_be_posted();
    let told = told_while_posting(&rt, rt.alloc(), &sheet)?;
    assert!(rt; told.0);
    assert!(rt; told.1);
    Ok(())
}

/// A gate in which worker 0 waits for the watcher.
#[derive(Drop)]
struct WatcherFirst {
    workers: u32,
    entered: AtomicBool,
    seen: AtomicBool,
}

impl WatcherFirst {
    fn of(workers: u32) -> WatcherFirst {
        WatcherFirst {
            workers,
            entered: AtomicBool::new(false),
            seen: AtomicBool::new(false),
        }
    }
}

impl Gate for WatcherFirst {
    fn enter(&self, worker: u32) {
        if worker == self.workers {
            self.entered.store(true, Ordering::SeqCst);
        }
        if worker == 0 && wait_for(&self.entered) {
            self.seen.store(true, Ordering::SeqCst);
        }
    }
}

#[test]
fn a_watch_begins_before_its_workers_end(rt: HostRuntime) -> Result<(), Fail> {
    let list = two_receptions(rt.alloc())?;
    assert!(rt; are_short(&list));
    let gate = WatcherFirst::of(2);
    let watched = watch_for_alert(&rt, rt.alloc(), &Sheet::empty(), &list, 2, &gate)?;
    assert!(rt; gate.seen.load(Ordering::SeqCst));
    assert!(rt; watched.1);
    assert_eq!(rt; watched.0, one_by_one(&list));
    Ok(())
}

/// What a watch of the boards of groups 1 and 513 shows of group 1; whether its watcher saw the alert there; and
/// whether it saw another call there, or any of group 513.
fn watch_two_boards<R: Threads + Sync, G: Gate>(
    rt: &R,
    alloc: Global,
    workers: u32,
    gate: &G,
    known: &[Sheet],
    batch: &[GroupReception],
) -> Result<(Sheet, bool, bool), AllocError>
    requires workers { (1 ≤ workers) × (workers ≤ 64) }
    requires short { All IsShort batch.now }
{
    let mut watcher = BatchWatcher::new(alloc);
    watcher.add(1, None)?;
    watcher.add(513, None)?;
    let (entries, watcher) = watch_batch(rt, alloc, known, batch, workers, gate, watcher)?;
    let is_first_seen = watcher.seen_of(0, 1).is_some();
    let is_alert_seen = is_alert(watcher.seen_of(0, 1));
    let is_other_seen = watcher.seen_of(0, 513).is_some();
    Ok((
        sheet_of_group(&entries, 1),
        is_alert_seen,
        is_other_seen || is_first_seen && !is_alert_seen,
    ))
}

// Group 513 has one of the two receptions, which alone reports no call.
#[test]
fn a_watch_of_two_boards_begins_before_its_workers_end(rt: HostRuntime) -> Result<(), Fail> {
    let list = two_receptions(rt.alloc())?;
    let batch = two_groups(rt.alloc())?;
    assert!(rt; are_short(&list) && are_all_short(&batch));
    for workers in [1, 2] {
        let gate = WatcherFirst::of(workers);
        let (sheet, _is_alert, is_other) = watch_two_boards(
            &rt,
            rt.alloc(),
            workers,
            &gate,
            &[],
            &batch,
        )?;
        assert!(rt; gate.seen.load(Ordering::SeqCst), "{workers} workers");
        assert_eq!(rt; sheet, one_by_one(&list), "{workers} workers");
        assert!(rt; !is_other, "{workers} workers");
    }
    Ok(())
}

#[test]
fn what_was_known_of_a_group_counts_in_a_watch(rt: HostRuntime) -> Result<(), Fail> {
    let list = two_receptions(rt.alloc())?;
    let batch = two_groups(rt.alloc())?;
    assert!(rt; are_short(&list) && are_all_short(&batch));
    let known = [Sheet::empty(), one_by_one(&list)];
    let (_sheet, is_alert, is_other) = watch_two_boards(&rt, rt.alloc(), 2, &Open, &known, &batch)?;
    assert!(rt; is_alert);
    assert!(rt; !is_other);
    Ok(())
}

/// A gate in which worker 1 waits for the watcher, and then lets it look for a while.
#[derive(Drop)]
struct LastWorkerWaits {
    entered: AtomicBool,
    met: AtomicBool,
}

impl Gate for LastWorkerWaits {
    fn enter(&self, worker: u32) {
        if worker == 2 {
            self.entered.store(true, Ordering::SeqCst);
        }
        if worker == 1 && wait_for(&self.entered) {
            self.met.store(true, Ordering::SeqCst);
            for _ in 0..1_000 {
                yield_now();
            }
        }
    }
}

/// A batch of groups 1 and 513. The first of two workers reads the two receptions of group 1 that report the alert
/// together; the second reads one of group 513, which reports no call alone, and one of group 1 that differs.
fn batch_that_differs(alloc: Global) -> Result<Vec<GroupReception>, AllocError> {
    let mut batch = Vec::new(alloc);
    let mut both = two_receptions(alloc)?;
    let second = both.pop();
    let differing = one_that_differs(alloc)?;
    for reception in both {
        batch.push(GroupReception {
            group: 1,
            reception,
        })?;
    }
    batch.push(GroupReception {
        group: 1,
        reception: differing,
    })?;
    if let Some(reception) = second {
        batch.push(GroupReception {
            group: 1,
            reception,
        })?;
    }
    if let Some(reception) = two_receptions(alloc)?.pop() {
        batch.push(GroupReception {
            group: 513,
            reception,
        })?;
    }
    Ok(batch)
}

// The facts of group 1 report no call in the end. Worker 1 is in the gate while worker 0 posts what reports one: the
// watcher sees it, in some of so many tries at the least.
#[test]
fn a_call_is_seen_that_facts_report_for_a_while(rt: HostRuntime) -> Result<(), Fail> {
    let batch = batch_that_differs(rt.alloc())?;
    assert!(rt; are_all_short(&batch));
    let mut is_seen = false;
    for _ in 0..100 {
        let gate = LastWorkerWaits {
            entered: AtomicBool::new(false),
            met: AtomicBool::new(false),
        };
        let (sheet, is_alert, is_other) = watch_two_boards(&rt, rt.alloc(), 2, &gate, &[], &batch)?;
        assert!(rt; gate.met.load(Ordering::SeqCst));
        assert_eq!(rt; sheet.at(7), Seen::Differ(106, 120));
        assert!(rt; !is_other);
        if is_alert {
            is_seen = true;
            break;
        }
    }
    assert!(rt; is_seen);
    Ok(())
}

#[test]
fn watches_by_any_number_of_workers(rt: HostRuntime) -> Result<(), Fail> {
    let list = two_receptions(rt.alloc())?;
    assert!(rt; are_short(&list));
    for workers in [1, 2, 64] {
        let watched = watch_for_alert(&rt, rt.alloc(), &Sheet::empty(), &list, workers, &Open)?;
        assert!(rt; watched.1, "{workers} workers");
        assert_eq!(rt; watched.0, one_by_one(&list), "{workers} workers");
    }
    let whole = one_by_one(&list);
    let watched = watch_for_alert(&rt, rt.alloc(), &whole, &[], 1, &Open)?;
    assert!(rt; watched.1);
    assert_eq!(rt; watched.0, whole);
    let watched = watch_for_alert(
        &rt,
        rt.alloc(),
        &Sheet::empty(),
        &list[..list.len() / 2],
        1,
        &Open,
    )?;
    assert!(rt; !watched.1);
    Ok(())
}
