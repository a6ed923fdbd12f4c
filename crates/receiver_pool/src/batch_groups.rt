//! The groups of a batch: each has a number within it, by which workers find its sheet.
ghost use Rattle.std.specs.Prelude.{◌≡◌, ℕ, ◌+◌, ◌<◌, ◌≤◌, All, None, false, IfOk, IfSome, length, map, slice_index};
ghost use Rattle.slot_evidence.specs.Facts.{Facts, no_facts};
ghost use Rattle.receiver_pool.specs.Groups.{AreSheets, AreShown, IsOneOf, IsShort};
ghost use Rattle.receiver_pool.specs.inside.Turns.{is_turn};
ghost use Rattle.receiver_pool.specs.inside.Numbers.{AreNumbered, ArePlaces, AreRemembered, AreTurns, IsBelow, IsPlaced, gathered, is_listed, place_part, read_by};

use crate::boards::blank_sheets;
use crate::gate::Entered;
use crate::group_entries::{GroupReception, GroupSheet};
use crate::pools::{is_mine, take_turn};
use crate::posts::Posts;
use crate::threads::threads_for;
use phasing::Elements;
use slot_evidence::Sheet;
use std::alloc::{AllocError, Global};

/// How many groups are remembered by their places. If two have one remainder, the search finds the other.
const REMEMBERED: usize = 512;

/// In place of a group's place: none is remembered yet.
const NOWHERE: usize = usize::MAX;

/// The place of a group in a list, if it has one.
fn find(groups: &[usize], group: usize) -> Option<usize>
    ensures some { IfSome result (λ place. (place < length groups.now) × (slice_index groups.now place ≡ group)) }
    ensures none { result ≡ None → is_listed groups.now group ≡ false }
{
    for (place, known) in groups.iter().enumerate() {
        if *known == group {
            return Some(place);
        }
    }
    None
}

/// The same, with the help of what is remembered of each remainder: whether a group with it is in the list, and where
/// one is.
fn known_place(groups: &[usize], remembered: &[usize; 512], group: usize) -> Option<usize>
    requires { AreRemembered groups.now remembered.now }
    ensures some { IfSome result (λ place. (place < length groups.now) × (slice_index groups.now place ≡ group)) }
    ensures none { result ≡ None → is_listed groups.now group ≡ false }
{
    let place = remembered[group % REMEMBERED];
    if place == NOWHERE {
        return None;
    }
    if place < groups.len() && groups[place] == group {
        return Some(place);
    }
    find(groups, group)
}

/// The number of a group within its batch. A new one gets the next.
fn place_of(
    groups: &mut Vec<usize>,
    remembered: &mut [usize; 512],
    group: usize,
) -> Result<usize, AllocError>
    requires { AreRemembered groups.old.items remembered.old }
    ensures placed { IfOk result (λ place. IsPlaced group place groups.old.items groups.new.items) }
    ensures remembered { IfOk result (λ place. AreRemembered groups.new.items remembered.new) }
{
    if let Some(place) = known_place(groups, remembered, group) {
        remembered[group % REMEMBERED] = place;
        return Ok(place);
    }
    let next = groups.len();
    groups.push(group)?;
    remembered[group % REMEMBERED] = next;
    Ok(next)
}

/// The groups that a batch names, and for each reception the place of its group among them.
pub(crate) fn number_groups(
    alloc: Global,
    batch: &[GroupReception],
) -> Result<(Vec<usize>, Vec<usize>), AllocError>
    ensures { IfOk result (λ made. AreNumbered batch.now (length batch.now) made.0.items made.1.items) }
{
    let mut groups = Vec::new(alloc);
    let mut places = Vec::with_capacity(alloc, batch.len())?;
    let mut remembered = [NOWHERE; 512];
    for heard in batch {
        places.push(place_of(&mut groups, &mut remembered, heard.group)?)?;
    }
    Ok((groups, places))
}

/// How workers share a batch: each reception is the turn of one of them, and goes into the sheet of its group. Where
/// somebody looks at the boards, each is posted as soon as it was read.
#[derive(Drop)]
pub struct Turns {
    /// For each reception the place of its group among those of the batch.
    pub places: Vec<usize>,
    /// How many workers there are: worker w takes the receptions whose index leaves w when divided by their number.
    pub workers: u32,
    pub posts: Posts,

    /// What was known before of the group at each place. A worker posts no sheet that shows nothing more.
    pub known: Vec<Sheet>,
}

/// Reads the receptions of workers who have entered into the sheets of their groups.
fn read_into(
    sheets: &mut [Sheet],
    batch: &[GroupReception],
    places: &[usize],
    workers: u32,
    entered: &Entered,
)
    requires workers { 0 < workers }
    requires short { All IsShort batch.now }
    requires places { ArePlaces (length batch.now) (length sheets.old) places.now }
    ensures { (n : ℕ) → AreSheets (λ k. no_facts) sheets.old n
        → AreSheets (place_part (is_turn workers entered.now.low entered.now.high) batch.now places.now
        (length batch.now)) sheets.new n }
{
    for (index, heard) in batch.iter().enumerate() {
        let mine = is_mine(index, workers, entered.low, entered.high);
        take_turn(&mut sheets[places[index]], &heard.reception, mine);
    }
}

/// What the receptions of workers who have entered show of each of so many groups.
pub(crate) fn shown_to(
    entered: &Entered,
    alloc: Global,
    batch: &[GroupReception],
    turns: &Turns,
    count: usize,
) -> Result<Vec<Sheet>, AllocError>
    requires workers { 0 < turns.now.workers }
    requires turns { AreTurns count batch.now turns.now }
    ensures { IfOk result (λ v. AreSheets (read_by batch.now turns.now entered.now.low entered.now.high) v.items count) }
{
    let mut sheets = blank_sheets(alloc, count)?;
    read_into(&mut sheets, batch, &turns.places, turns.workers, entered);
    Ok(sheets)
}

/// How many threads act for so many workers on a batch.
pub(crate) fn threads_of(batch: &[GroupReception], workers: u32) -> u32
    requires { 1 ≤ workers }
    ensures some { (1 ≤ result) × (result ≤ workers) }
    ensures two { 2 ≤ workers → 2 ≤ result }
{
    let mut elements: usize = 0;
    for heard in batch {
        elements = elements.saturating_add(heard.reception.count());
    }
    threads_for(workers, elements)
}

/// An entry for each group.
pub(crate) fn entries_of(
    alloc: Global,
    groups: &[usize],
    sheets: &[Sheet],
) -> Result<Vec<GroupSheet>, AllocError>
    requires { length sheets.now ≡ length groups.now }
    ensures { IfOk result (λ v. ((F : ℕ → Facts) → AreSheets F sheets.now (length groups.now)
        → AreShown (gathered groups.now F (length groups.now)) v.items)
        × ((n : ℕ) → All (IsBelow n) groups.now → All (IsOneOf n) v.items)
        × (map (λ entry. entry.group) v.items ≡ groups.now)) }
{
    let mut entries = Vec::with_capacity(alloc, groups.len())?;
    for (k, group) in groups.iter().enumerate() {
        entries.push(GroupSheet {
            group: *group,
            sheet: sheets[k],
        })?;
    }
    Ok(entries)
}
