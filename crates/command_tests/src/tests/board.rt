//! Threads on one board, and workers that join receptions.
ghost use Rattle.std.specs.Prelude.{◌≡◌, ◌≤◌, ◌⊎◌, All, IsTrue, length};
ghost use Rattle.slot_evidence.specs.Allowed.{OnlyAllowed};
ghost use Rattle.receiver_pool.specs.Groups.{IsShort};
ghost use Rattle.evidence_board.specs.inside.Worked.{two_facts};

use dsc_symbols::worked::{ALERT_SLOTS, LOST_BUT_PLACE_7, LOST_DX_AND_PLACE_7};
use evidence_board::{Allowed, Board, Seat, WHOLE};
use phasing::{Elements, LONGEST};
use receiver_pool::{Gate, GroupReception, GroupSheet, Open, Rendezvous, pool, pool_groups};
use slot_evidence::{Reception, Seen, Sheet, shown_by};
use std::alloc::{AllocError, Global};
use std::process::Abort;
use std::test::Fail;
use std::thread::{Threads, join};
use ten_unit::{Element, word};

/// The two facts of the worked row: place 8 showed 14, and it showed 22.
struct TwoFacts;

impl Allowed for TwoFacts {
    ghost facts = { two_facts };
}

/// The sheet of one of the two facts.
fn sheet_of(symbol: u8) -> Sheet
    requires { (symbol ≡ 14) ⊎ (symbol ≡ 22) }
    ensures { OnlyAllowed two_facts result }
{
    let mut sheet = Sheet::empty();
    sheet.add(8, symbol);
    sheet
}

/// That a sheet says of place 8 that it showed both symbols, and nothing of any other place.
fn is_both(rt: &impl Abort, sheet: &Sheet) {
    for p in 0..64 {
        let seen = if p == 8 {
            Seen::Differ(14, 22)
        } else {
            Seen::None
        };
        assert_eq!(rt; sheet.at(p), seen, "place {p}");
    }
}

#[test]
fn two_seats_on_one_thread(rt: HostRuntime) -> Result<(), Fail> {
    let (board, seat) = Board::<TwoFacts>::new(rt.alloc())?;
    assert_eq!(rt; seat.share(), WHOLE);
    let (one, other) = board.split(seat);
    assert_eq!(rt; one.share() + other.share(), WHOLE);
    let one = board.admit(one, &sheet_of(14));
    let other = board.admit(other, &sheet_of(22));
    let (one, sheet) = board.look(one);
    is_both(&rt, &sheet);
    let seat = board.join(one, other);
    is_both(&rt, &board.close(seat));
    Ok(())
}

/// Two threads take a seat each of one board, and admit a fact each; the seats are joined and the board is closed.
fn heard_by_two<R: Threads + Sync>(rt: &R, alloc: Global) -> Result<Sheet, AllocError> {
    let (board, seat) = Board::<TwoFacts>::new(alloc)?;
    let (one, other) = board.split(seat);
    let shared = &board;
    let first = sheet_of(14);
    let second = sheet_of(22);
    let (one, other) = join(
        rt,
        move || -> Seat<TwoFacts>
            requires { (one.table ≡ shared.now) × OnlyAllowed two_facts first }
            ensures { (result.table ≡ shared.entry.now) × (result.view.share ≡ one.view.share) }
        { shared.admit(one, &first) },
        move || -> Seat<TwoFacts>
            requires { (other.table ≡ shared.now) × OnlyAllowed two_facts second }
            ensures { (result.table ≡ shared.entry.now) × (result.view.share ≡ other.view.share) }
        { shared.admit(other, &second) },
    );
    let seat = board.join(one, other);
    Ok(board.close(seat))
}

#[test]
fn two_seats_in_two_threads(rt: HostRuntime) -> Result<(), Fail> {
    for _ in 0..100 {
        let sheet = heard_by_two(&rt, rt.alloc())?;
        is_both(&rt, &sheet);
    }
    Ok(())
}

/// What a look shows that comes after another thread's post: the one thread enters the gate after its post, the other
/// before its look, with a seat that posted and saw nothing.
fn looked_behind_a_post<R: Threads + Sync>(
    rt: &R,
    alloc: Global,
    gate: &Rendezvous,
) -> Result<Sheet, AllocError> {
    let (board, seat) = Board::<TwoFacts>::new(alloc)?;
    let (one, other) = board.split(seat);
    let shared = &board;
    let posted = sheet_of(22);
    let (_one, (_other, sheet)) = join(
        rt,
        move || -> Seat<TwoFacts>
            requires { (one.table ≡ shared.now) × OnlyAllowed two_facts posted }
        {
            let one = shared.admit(one, &posted);
            gate.enter(0);
            one
        },
        move || -> (Seat<TwoFacts>, Sheet)
            requires { other.table ≡ shared.now }
        {
            gate.enter(1);
            shared.look(other)
        },
    );
    Ok(sheet)
}

#[test]
fn a_look_shows_what_another_thread_posted(rt: HostRuntime) -> Result<(), Fail> {
    for _ in 0..10 {
        let gate = Rendezvous::of(2);
        let sheet = looked_behind_a_post(&rt, rt.alloc(), &gate)?;
        assert_eq!(rt; gate.came_together(), 2);
        for p in 0..64 {
            let seen = if p == 8 { Seen::One(22) } else { Seen::None };
            assert_eq!(rt; sheet.at(p), seen, "place {p}");
        }
    }
    Ok(())
}

#[test]
fn a_seat_dropped_on_the_way(rt: HostRuntime) -> Result<(), Fail> {
    let (board, seat) = Board::<TwoFacts>::new(rt.alloc())?;
    let (one, other) = board.split(seat);
    let other = board.admit(other, &sheet_of(22));
    drop(other);
    let one = board.admit(one, &sheet_of(14));
    let (_one, sheet) = board.look(one);
    is_both(&rt, &sheet);
    Ok(())
}

/// A reception of the worked alert that begins with slot 0, in which these slots are lost.
fn reception(alloc: Global, lost: &[usize]) -> Result<Reception, AllocError> {
    reception_with(alloc, lost, &[])
}

/// A whole reception of it, in which both slots of place 7 have another symbol.
pub(crate) fn one_that_differs(alloc: Global) -> Result<Reception, AllocError> {
    reception_with(alloc, &[], &[26, 31])
}

/// A reception of it in which these slots are lost, and those have the symbol 120.
fn reception_with(alloc: Global, lost: &[usize], other: &[usize]) -> Result<Reception, AllocError> {
    let mut elements = Vec::new(alloc);
    for (slot, symbol) in ALERT_SLOTS.iter().enumerate() {
        let is_lost = lost.contains(&slot);
        let symbol = if other.contains(&slot) { 120 } else { *symbol };
        let sent = word(symbol % 128);
        let heard = if is_lost { [Element::Lost; 10] } else { sent };
        elements.extend_from_slice(&heard)?;
    }
    Ok(Reception::of_elements(alloc, &elements)?)
}

/// The two receptions of the worked row: one lost its DX slots from 12 on and slot 31, the other all slots from 16 on
/// but slot 26.
pub(crate) fn two_receptions(alloc: Global) -> Result<Vec<Reception>, AllocError> {
    let mut list = Vec::new(alloc);
    list.push(reception(alloc, &LOST_DX_AND_PLACE_7)?)?;
    list.push(reception(alloc, &LOST_BUT_PLACE_7)?)?;
    Ok(list)
}

/// Whether no reception passes the greatest length.
pub(crate) fn are_short(list: &[Reception]) -> bool
    ensures { IsTrue result → All (λ heard. length heard ≤ LONGEST) list.now }
{
    list.iter().all(|heard| heard.count() <= LONGEST as usize)
}

/// The sheet of receptions, joined one after another.
pub(crate) fn one_by_one(list: &[Reception]) -> Sheet
    requires { All (λ heard. length heard ≤ LONGEST) list.now }
{
    let mut sheet = Sheet::empty();
    for heard in list {
        sheet.meet(&shown_by(heard));
    }
    sheet
}

/// The sheet of the two receptions.
pub(crate) fn whole_sheet(rt: &impl Abort, alloc: Global) -> Result<Sheet, Fail> {
    let list = two_receptions(alloc)?;
    assert!(rt; are_short(&list));
    Ok(one_by_one(&list))
}

#[test]
fn two_workers_meet_in_the_gate(rt: HostRuntime) -> Result<(), Fail> {
    let list = two_receptions(rt.alloc())?;
    assert!(rt; are_short(&list));
    let gate = Rendezvous::of(2);
    let sheet = pool(&rt, rt.alloc(), &list, 2, &gate)?;
    assert_eq!(rt; gate.entered(), 2);
    assert_eq!(rt; gate.came_together(), 2);
    assert_eq!(rt; sheet.at(7), Seen::One(106));
    assert_eq!(rt; sheet, one_by_one(&list));
    Ok(())
}

#[test]
fn any_number_of_workers(rt: HostRuntime) -> Result<(), Fail> {
    let list = two_receptions(rt.alloc())?;
    assert!(rt; are_short(&list));
    let whole = one_by_one(&list);
    for workers in [1, 2, 3, 64] {
        assert_eq!(rt;
            pool(&rt, rt.alloc(), &list, workers, &Open)?,
            whole,
            "{workers} workers"
        );
    }
    assert_eq!(rt; pool(&rt, rt.alloc(), &[], 5, &Open)?, Sheet::empty());
    Ok(())
}

/// Whether no reception of a batch passes the greatest length.
pub(crate) fn are_all_short(batch: &[GroupReception]) -> bool
    ensures { IsTrue result → All IsShort batch.now }
{
    batch
        .iter()
        .all(|heard| heard.reception.count() <= LONGEST as usize)
}

/// A batch of two groups, whose numbers are 512 apart: group 1 has both receptions, and group 513 the second one, which
/// comes between.
pub(crate) fn two_groups(alloc: Global) -> Result<Vec<GroupReception>, AllocError> {
    let mut batch = Vec::new(alloc);
    for group in [1, 513] {
        if let Some(reception) = two_receptions(alloc)?.pop() {
            batch.push(GroupReception { group, reception })?;
        }
    }
    for reception in two_receptions(alloc)? {
        batch.push(GroupReception {
            group: 1,
            reception,
        })?;
    }
    Ok(batch)
}

/// The sheet of a group, joined from all of its entries.
pub(crate) fn sheet_of_group(entries: &[GroupSheet], group: usize) -> Sheet {
    let mut sheet = Sheet::empty();
    for entry in entries {
        if entry.group == group {
            sheet.meet(&entry.sheet);
        }
    }
    sheet
}

#[test]
fn receptions_without_an_origin_show_nothing(rt: HostRuntime) -> Result<(), Fail> {
    let mut batch = Vec::new(rt.alloc());
    for group in [0, 1, 0] {
        batch.push(GroupReception {
            group,
            reception: Reception::of_elements(rt.alloc(), &[])?,
        })?;
    }
    assert!(rt; are_all_short(&batch));
    for workers in [1, 2, 64] {
        let entries = pool_groups(&rt, rt.alloc(), &[], &batch, workers, &Open)?;
        assert_eq!(rt; entries.len(), 2, "{workers} workers");
        for entry in &entries {
            assert_eq!(rt; entry.sheet, Sheet::empty(), "{workers} workers");
        }
    }
    Ok(())
}

#[test]
fn groups_of_a_batch(rt: HostRuntime) -> Result<(), Fail> {
    let whole = whole_sheet(&rt, rt.alloc())?;
    let batch = two_groups(rt.alloc())?;
    assert!(rt; are_all_short(&batch));
    for workers in [1, 2, 3, 64] {
        let entries = pool_groups(&rt, rt.alloc(), &[], &batch, workers, &Open)?;
        assert_eq!(rt; entries.len(), 2);
        let second = sheet_of_group(&entries, 513);
        assert_eq!(rt; second.at(6), Seen::None);
        assert_eq!(rt; second.at(7), Seen::One(106));
        assert_eq!(rt; sheet_of_group(&entries, 1), whole, "{workers} workers");
    }
    let gate = Rendezvous::of(2);
    let entries = pool_groups(&rt, rt.alloc(), &[], &batch, 2, &gate)?;
    assert_eq!(rt; entries.len(), 2);
    assert_eq!(rt; gate.came_together(), 2);
    Ok(())
}

#[test]
fn what_is_known_of_a_group_is_not_posted_again(rt: HostRuntime) -> Result<(), Fail> {
    let known = [Sheet::empty(), whole_sheet(&rt, rt.alloc())?];
    let batch = two_groups(rt.alloc())?;
    assert!(rt; are_all_short(&batch));
    for workers in [2, 3, 64] {
        let entries = pool_groups(&rt, rt.alloc(), &known, &batch, workers, &Open)?;
        assert_eq!(rt; entries.len(), 2, "{workers} workers");
        assert_eq!(rt;
            sheet_of_group(&entries, 1),
            Sheet::empty(),
            "{workers} workers"
        );
        assert_eq!(rt;
            sheet_of_group(&entries, 513).at(7),
            Seen::One(106),
            "{workers} workers"
        );
    }
    Ok(())
}
