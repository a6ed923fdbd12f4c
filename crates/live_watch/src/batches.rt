//! A watcher of all boards of a batch.
ghost use Rattle.std.specs.Prelude.{◌≡◌, ℕ, ◌<◌, ◌≤◌, ◌++◌, ◌∷◌, true, false, List, [], None, All, IfOk, MatchOption, OnOk, length};
ghost use Rattle.slot_evidence.specs.declared.places.Seen.{Seen};
ghost use Rattle.slot_evidence.specs.Facts.{Facts, union};
ghost use Rattle.slot_evidence.specs.Sheet.{IsEnds, facts_in};
ghost use Rattle.evidence_board.specs.Seats.{Held};
ghost use Rattle.receiver_pool.specs.Groups.{facts_of_group, IsShort, ShowsNews};
ghost use Rattle.receiver_pool.specs.Rows.{AreAsBefore, HaveSeenNothing, Sit};
ghost use Rattle.live_watch.specs.declared.batches.WatchedGroup.{WatchedGroup as Begun};
ghost use Rattle.live_watch.specs.Told.{IsReportOf};
ghost use Rattle.live_watch.specs.Batches.{HasWatched, IsReportWith, IsSightOf, WentRound, known_of};
ghost use Rattle.live_watch.specs.Joining.{JoinsWatched};
ghost use Rattle.live_watch.specs.inside.Rounds.{AreJudged, AreOnBoards, IsBoardOf, IsDone, IsNoneOf, IsPlaceOf, IsRound, IsStep, IsUnderWay, sights_of, watched_at};

use crate::showing::{Unreported, reports};
use call_values::Call;
use receiver_pool::{
    AllFacts, Beside, Board, Gate, GroupReception, GroupSheet, Posts, Reading, Seat, look_at,
    pool_groups, pool_groups_beside,
};
use slot_evidence::{Sheet, ends_are_kept, sheet_has_facts};
use slot_join::alike_facts_have_one_answer;
use std::alloc::{AllocError, Global};
use std::marker::Model;
use std::thread::{Threads, yield_now};

/// A watcher goes round its boards at most so often.
const MOST_ROUNDS: u32 = 1_000_000;

/// The call that was seen of a group, if any.
#[derive(Drop)]
struct SeenCall {
    call: Option<Call>,
}

impl Model for SeenCall {
    ghost use Rattle.std.specs.Prelude.{Option};
    ghost use Rattle.call_values.specs.declared.calls.Call.{Call};

    ghost Value = { Option Call };

    ghost view = { λ s. s.call };
}

impl SeenCall {
    /// The call.
    fn get(&self) -> Option<Call>
        ensures { result ≡ self.now }
    {
        self.call
    }
}

/// A group that a watcher watches.
#[derive(Drop)]
struct WatchedGroup {
    /// Its number.
    group: usize,
    /// The call that was seen of it, if any.
    call: SeenCall,
    /// The place of its board among those of the batch.
    board: Option<usize>,
    /// Whether somebody looked there, or nobody need look before something new is posted: what was known of the group
    /// reports no call.
    is_looked: bool,
    /// How often something new had been posted there before the last look.
    posts: u32,
    /// The last sheet of it that was judged: it reports no call.
    unreported: Option<Unreported>,
}

impl WatchedGroup {
    /// The group with this number, of which a sheet may be known that reports no call.
    fn new(group: usize, unreported: Option<Unreported>) -> WatchedGroup
        ensures { (result.group ≡ group) × (result.call ≡ None) }
    {
        WatchedGroup {
            group,
            call: SeenCall { call: None },
            board: None,
            is_looked: false,
            posts: 0,
            unreported,
        }
    }

    /// Whether there is nothing more to be seen of it: a call was, or the batch has no board of it.
    fn is_done(&self) -> bool {
        self.call.get().is_some() || self.board.is_none()
    }

    /// Whether what was known of the group is the sheet that was judged last: then it reports no call.
    fn was_judged(&self, known: &[Sheet]) -> bool
        ensures { result ≡ true → IsReportOf (known_of known.now self.now.group) None }
    {
        self.group < known.len() && self.is_judged(&known[self.group])
    }

    /// Begins a batch in which its board is at this place, if it has one. Where what was known of the group was judged
    /// before, nobody need look there before something new is posted.
    fn begin(&mut self, known: &[Sheet], board: Option<usize>)
        ensures kept { (self.new.group ≡ self.old.group) × (self.new.call ≡ self.old.call) × (self.new.board ≡ board) }
        ensures judged { self.new.is_looked ≡ true → IsReportOf (known_of known.now self.old.group) None }
    {
        self.is_looked = self.was_judged(known);
        self.board = board;
        self.posts = 0;
    }

    /// Whether nothing is to be seen of it by a look at its board, on which something new was posted so often: a call
    /// was seen, or nothing is new. The last look is made also where none was made before that need be.
    fn is_over(&self, posts: u32, is_last: bool) -> bool
        ensures over { result ≡ true → is_last ≡ true → IsDone self.now }
        ensures open { result ≡ false → self.now.call ≡ None }
    {
        if self.call.get().is_some() {
            return true;
        }
        posts == self.posts && (self.is_looked || !is_last)
    }

    /// Whether this is the sheet that was judged last: then it reports no call.
    fn is_judged(&self, sheet: &Sheet) -> bool
        ensures { result ≡ true → IsReportOf sheet.now None }
    {
        match &self.unreported {
            Some(unreported) => unreported.is_of(sheet),
            None => false,
        }
    }

    /// Takes in what a look showed, together with what was known of the group. The same sheet isn't judged twice.
    fn take_look(&mut self, known: &[Sheet], sheet: &Sheet, posts: u32)
        requires { self.old.call ≡ None }
        ensures kept { (self.new.group ≡ self.old.group) × (self.new.board ≡ self.old.board)
            × (self.new.is_looked ≡ true) }
        ensures report { IsReportWith (known_of known.now self.old.group) sheet.now self.new.call }
    {
        let all = with_known(known, self.group, sheet);
        self.is_looked = true;
        self.posts = posts;
        if self.is_judged(&all) {
            return;
        }
        match reports(&all) {
            Ok(call) => self.call = SeenCall { call: Some(call) },
            Err(unreported) => self.unreported = Some(unreported),
        }
    }
}

/// A sheet together with what was known of the group with this number.
fn with_known(known: &[Sheet], group: usize, sheet: &Sheet) -> Sheet
    ensures { (F : Facts) → IsEnds F (known_of known.now group) → IsEnds (union F (facts_in sheet.now)) result }
{
    sheet_has_facts(sheet);
    if group >= known.len() {
        return *sheet;
    }
    let mut all = known[group];
    all.meet(sheet);
    all
}

/// The place of a group in a list: it is sought here first.
fn place_of(groups: &[usize], here: usize, group: usize) -> Option<usize>
    ensures { IsBoardOf groups.now group result }
{
    if here < groups.len() && groups[here] == group {
        return Some(here);
    }
    for (place, known) in groups.iter().enumerate() {
        if *known == group {
            return Some(place);
        }
    }
    None
}

/// Finds the board of each group: the k-th board is that of the k-th of these groups. No seat of them has seen
/// anything.
fn find_boards(watched: &mut [WatchedGroup], known: &[Sheet], groups: &[usize])
    ensures { (seats : List Held) → HaveSeenNothing (length groups.now) seats
        → IsRound known.now groups.now watched.old watched.new seats }
{
    alike_facts_have_one_answer();
    ends_are_kept();
    let mut next = 0;
    for i in 0..watched.len() {
        let place = place_of(groups, next, watched[i].group);
        next = place.unwrap_or(next).saturating_add(1);
        watched[i].begin(known, place);
    }
}

/// Looks at the board of the group with this index, where a call is still to be seen of it and there is something new.
/// The last look is made also where there is nothing.
fn look_once(
    index: usize,
    watched: &mut [WatchedGroup],
    known: &[Sheet],
    boards: &[Board<AllFacts>],
    seats: &mut [Seat<AllFacts>],
    posts: &Posts,
    is_last: bool,
)
    requires index { index < length watched.old }
    requires seats { Sit 1 boards.now seats.old }
    requires boards { AreOnBoards (length boards.now) watched.old }
    ensures kept { AreAsBefore boards.now seats.old seats.new }
    ensures step { IsStep known.now index watched.old seats.old watched.new seats.new }
    ensures done { is_last ≡ true → IsDone (watched_at watched.new index) }
{
    let Some(number) = watched[index].board else {
        return;
    };
    let count = posts.posts_on(number);
    if watched[index].is_over(count, is_last) {
        return;
    }
    let sheet = look_at(boards, seats, number);
    watched[index].take_look(known, &sheet, count);
}

/// Looks once at the board of each group.
fn go_once(
    watched: &mut [WatchedGroup],
    known: &[Sheet],
    boards: &[Board<AllFacts>],
    seats: &mut [Seat<AllFacts>],
    posts: &Posts,
    is_last: bool,
)
    requires seats { Sit 1 boards.now seats.old }
    requires round { IsUnderWay known.now (length boards.now) watched.old seats.old }
    ensures kept { AreAsBefore boards.now seats.old seats.new }
    ensures round { (groups : List ℕ) (begun : List Begun) → IsRound known.now groups begun watched.old seats.old
        → IsRound known.now groups begun watched.new seats.new }
    ensures judged { is_last ≡ true → (groups : List ℕ) (begun : List Begun)
        → IsRound known.now groups begun watched.old seats.old → AreJudged known.now begun watched.new seats.new }
{
    for index in 0..watched.len() {
        look_once(index, watched, known, boards, seats, posts, is_last);
    }
}

/// Whether nothing more is to be seen of any group.
fn is_done(watched: &[WatchedGroup]) -> bool {
    watched.iter().all(|one| one.is_done())
}

/// Goes round the boards, until a call of each group was seen or all was posted.
fn look_on(
    watched: &mut [WatchedGroup],
    known: &[Sheet],
    boards: &[Board<AllFacts>],
    seats: &mut [Seat<AllFacts>],
    posts: &Posts,
)
    requires seats { Sit 1 boards.now seats.old }
    requires round { IsUnderWay known.now (length boards.now) watched.old seats.old }
    ensures kept { AreAsBefore boards.now seats.old seats.new }
    ensures round { (groups : List ℕ) (begun : List Begun) → IsRound known.now groups begun watched.old seats.old
        → IsRound known.now groups begun watched.new seats.new }
{
    for _ in 0..MOST_ROUNDS {
        if posts.is_over() || is_done(watched) {
            return;
        }
        go_once(watched, known, boards, seats, posts, false);
        yield_now();
    }
}

/// Goes round the boards of groups, and once more after the last post.
fn go_through(
    watched: &mut [WatchedGroup],
    known: &[Sheet],
    groups: &[usize],
    boards: &[Board<AllFacts>],
    seats: &mut [Seat<AllFacts>],
    posts: &Posts,
)
    requires seats { Sit 1 boards.now seats.old }
    requires unseen { HaveSeenNothing (length boards.now) seats.old }
    requires count { length boards.now ≡ length groups.now }
    ensures kept { AreAsBefore boards.now seats.old seats.new }
    ensures gone { WentRound (sights_of watched.old) (sights_of watched.new) known.now groups.now seats.new }
{
    find_boards(watched, known, groups);
    look_on(watched, known, boards, seats, posts);
    go_once(watched, known, boards, seats, posts, true);
}

/// The place of the group with this number among those that are watched: it is sought here first.
fn place_among(watched: &[WatchedGroup], here: usize, group: usize) -> Option<usize>
    ensures { MatchOption result (IsNoneOf watched.now group) (λ place. IsPlaceOf watched.now place group) }
{
    if here < watched.len() && watched[here].group == group {
        return Some(here);
    }
    for (place, one) in watched.iter().enumerate() {
        if one.group == group {
            return Some(place);
        }
    }
    None
}

/// A watcher of a batch. It goes round the boards of the groups that it watches, and looks at those on which there is
/// something new, until it has seen a call of each; and once more after the last post. What was known of a group before
/// the batch counts with what its board shows. Contracts see it as the groups that it watches, each with the call that
/// it saw.
#[derive(Drop)]
pub struct BatchWatcher {
    watched: Vec<WatchedGroup>,
}

impl Model for BatchWatcher {
    ghost use Rattle.std.specs.Prelude.{List};
    ghost use Rattle.live_watch.specs.Batches.{Sight};
    ghost use Rattle.live_watch.specs.inside.Rounds.{sights_of};

    ghost Value = { List Sight };

    ghost view = { λ w. sights_of w.watched.items };
}

impl BatchWatcher {
    /// A watcher of no group.
    pub fn new(alloc: Global) -> BatchWatcher
        ensures { result ≡ [] }
    {
        BatchWatcher {
            watched: Vec::new(alloc),
        }
    }

    /// Watches the group with this number too, of which a sheet may be known that reports no call. The error is want of
    /// memory.
    pub fn add(&mut self, group: usize, unreported: Option<Unreported>) -> Result<(), AllocError>
        ensures { OnOk result (self.new ≡ self.old ++ record { group = group; seen = None } ∷ []) }
    {
        self.watched.push(WatchedGroup::new(group, unreported))?;
        Ok(())
    }

    /// The call that it saw of the group with this number, if any. The group is sought first at the place at which it
    /// was added.
    pub fn seen_of(&self, here: usize, group: usize) -> Option<Call>
        ensures { IsSightOf self.now group result }
    {
        match place_among(&self.watched, here, group) {
            Some(place) => self.watched[place].call.get(),
            None => None,
        }
    }

    /// The last sheet of the group that was judged, if any: it reports no call.
    pub fn unreported_of(&self, here: usize, group: usize) -> Option<Unreported> {
        match place_among(&self.watched, here, group) {
            Some(place) => again(&self.watched[place].unreported),
            None => None,
        }
    }
}

/// The same once more.
fn again(unreported: &Option<Unreported>) -> Option<Unreported> {
    match unreported {
        Some(unreported) => Some(unreported.again()),
        None => None,
    }
}

impl Beside for BatchWatcher {
    ghost has_seen = { WentRound };

    fn go_round(
        &mut self,
        known: &[Sheet],
        groups: &[usize],
        boards: &[Board<AllFacts>],
        seats: &mut [Seat<AllFacts>],
        posts: &Posts,
    ) {
        go_through(&mut self.watched, known, groups, boards, seats, posts);
    }
}

/// What a batch of receptions shows, as `pool_groups` says it, by 1 to 64 workers and with one fork, while a watcher
/// goes round the boards of the groups that it watches. It enters the gate once, before its first look, with the number
/// `workers`. Where it has no group to watch, this is `pool_groups`. The error is want of memory.
pub fn watch_batch<R: Threads + Sync, G: Gate>(
    rt: &R,
    alloc: Global,
    known: &[Sheet],
    batch: &[GroupReception],
    workers: u32,
    gate: &G,
    watcher: BatchWatcher,
) -> Result<(Vec<GroupSheet>, BatchWatcher), AllocError>
    requires workers { (1 ≤ workers) × (workers ≤ 64) }
    requires short { All IsShort batch.now }
    ensures shown { IfOk result (λ v. ShowsNews known.now (facts_of_group batch.now) batch.now v.0.items) }
    ensures watched { IfOk result (λ v. HasWatched watcher v.1 known.now batch.now) }
{
    if watcher.watched.is_empty() {
        let entries = pool_groups(rt, alloc, known, batch, workers, gate)?;
        return Ok((entries, watcher));
    }
    ends_are_kept();
    pool_groups_beside(rt, alloc, known, batch, workers, gate, watcher)
}

/// Those who read batches for the sheets of their groups while a watcher looks on.
pub trait WatchedJoiner: Drop {
    /// Their way of reading batches reads them.
    ghost can_join: { Self → Type 0 };

    /// How they read a reception of which nothing is to be seen beside them.
    fn reading(&self) -> &Reading;

    /// What a batch of receptions shows of each group, of which this is known, and the watcher, who watched it. The
    /// error is want of memory.
    fn read_watched(
        &self,
        known: &[Sheet],
        batch: &[GroupReception],
        watcher: BatchWatcher,
    ) -> Result<(Vec<GroupSheet>, BatchWatcher), AllocError>
        requires joins { can_join self.now }
        requires short { All IsShort batch.now }
        ensures shown { IfOk result (λ v. ShowsNews known.now (facts_of_group batch.now) batch.now v.0.items) }
        ensures watched { IfOk result (λ v. HasWatched watcher v.1 known.now batch.now) };
}

/// Workers who read batches by this function, as `watch_batch` does. One who works alone also reads a reception by
/// itself.
#[derive(Drop)]
pub struct WatchedWorkers<J> {
    reading: Reading,
    pub join: J,
}

impl<J: Drop> WatchedWorkers<J> {
    /// So many workers. One enters the gate here; one and several enter it in each batch.
    pub fn new<G: Gate>(workers: u32, gate: &G, join: J) -> WatchedWorkers<J>
        ensures { result.join ≡ join }
    {
        WatchedWorkers {
            reading: Reading::of(workers, gate),
            join,
        }
    }
}

impl<
    J: Drop
        + Fn(
            &[Sheet],
            &[GroupReception],
            BatchWatcher,
        ) -> Result<(Vec<GroupSheet>, BatchWatcher), AllocError>,
> WatchedJoiner for WatchedWorkers<J> {
    ghost can_join = { λ workers. JoinsWatched (J.pre workers.join) (J.post workers.join) };

    fn reading(&self) -> &Reading {
        &self.reading
    }

    fn read_watched(
        &self,
        known: &[Sheet],
        batch: &[GroupReception],
        watcher: BatchWatcher,
    ) -> Result<(Vec<GroupSheet>, BatchWatcher), AllocError> {
        (self.join)(known, batch, watcher)
    }
}
