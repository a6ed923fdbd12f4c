//! The calls that a watch told, and their lines.
ghost use Rattle.std.specs.Prelude.{◌≡◌, ℕ, ◌||◌, ◌==◌, ◌++◌, ◌∷◌, true, List, [], Option, None, Some, IfOk, IfErr, MatchResult, OnOk};
ghost use Rattle.live_watch.specs.Batches.{IsSightOf};
ghost use Rattle.live_watch.specs.Told.{IsToTell, IsWatched};
ghost use Rattle.call_values.specs.declared.calls.Call.{Call as Sent};
ghost use Rattle.slot_evidence.specs.Facts.{Facts};
ghost use Rattle.slot_evidence.specs.Sheet.{IsEnds, facts_in};
ghost use Rattle.input_lines.specs.ReceiverLine.{ReceiverLine};
ghost use Rattle.join_groups.specs.Groups.{is_among, is_named};
ghost use Rattle.join_groups.specs.Holds.{HoldsSome};
ghost use Rattle.join_groups.specs.inside.Kept.{Keeps};
ghost use Rattle.watch_groups.specs.Telling as tells;
ghost use Rattle.watch_groups.specs.Telling.{told_line};
ghost use Rattle.watch_groups.specs.inside.Begun.{AreWatched};
ghost use Rattle.watch_groups.specs.inside.Groups.{AreTheirGroups};
ghost use Rattle.watch_groups.specs.inside.Kept.{Notes, LooksAt, LooksThrough};

use arrayvec::ArrayVec;
use call_texts::append_call;
use call_values::Call;
use join_groups::NamedGroups;
use line_grammar::{append, append_number};
use live_watch::{BatchWatcher, Unreported, judge};
use slot_evidence::{Sheet, sheet_has_facts};
use std::alloc::{AllocError, Global};
use std::collections::BTreeSet;
use std::marker::Model;

/// A call that was told, and its group.
#[derive(Clone, Copy, Debug, PartialEq, Eq)]
pub struct ToldCall {
    pub group: u32,
    pub call: Call,
}

/// The calls that were told, in the order in which they were, and the set of their groups. Contracts see it as the
/// calls.
#[derive(Drop)]
pub(crate) struct ToldCalls {
    calls: Vec<ToldCall>,
    groups: BTreeSet<u32>,
}

impl Model for ToldCalls {
    ghost use Rattle.std.specs.Prelude.{List};
    ghost use Rattle.watch_groups.specs.declared.telling.ToldCall.{ToldCall};
    ghost use Rattle.watch_groups.specs.inside.Groups.{AreTheirGroups};

    ghost Value = { List ToldCall };

    ghost view = { λ t. t.calls.items };

    ghost invariant = { λ t. AreTheirGroups t.calls.items t.groups };
}

impl ToldCalls {
    /// No calls.
    pub(crate) fn new(alloc: Global) -> ToldCalls
        ensures { result ≡ [] }
    {
        ToldCalls {
            calls: Vec::new(alloc),
            groups: BTreeSet::new(alloc),
        }
    }

    /// Whether a call of this group was told.
    pub(crate) fn has(&self, group: u32) -> bool
        ensures { result ≡ tells.is_told self.now group }
    {
        self.groups.contains(&group)
    }

    /// Adds a call of this group. The error is want of memory.
    fn push(&mut self, group: u32, call: Call) -> Result<(), AllocError>
        ensures { OnOk result (self.new ≡ self.old ++ record { group = group; call = call } ∷ []) }
    {
        push_call(&mut self.calls, &mut self.groups, group, call)
    }
}

/// Adds a call to those that were told, and its group to theirs. The error is want of memory, and leaves both as they
/// were.
fn push_call(
    calls: &mut Vec<ToldCall>,
    groups: &mut BTreeSet<u32>,
    group: u32,
    call: Call,
) -> Result<(), AllocError>
    requires { AreTheirGroups calls.old.items groups.old }
    ensures groups { AreTheirGroups calls.new.items groups.new }
    ensures more { OnOk result (calls.new.items ≡ calls.old.items ++ record { group = group; call = call } ∷ []) }
{
    let count = calls.len();
    calls.push(ToldCall { group, call })?;
    if groups.insert(group).is_err() {
        calls.truncate(count);
        return Err(AllocError);
    }
    Ok(())
}

/// Adds a group to those that lines named.
fn note(named: &mut Vec<u32>, group: u32) -> Result<(), AllocError>
    ensures { OnOk result ((k : ℕ) → is_among named.new.items k ≡ (is_among named.old.items k || group == k)) }
{
    if !named.iter().any(|one| *one == group) {
        named.push(group)?;
    }
    Ok(())
}

/// The same of a group of which no call was told: nothing more is to be told of another.
pub(crate) fn note_untold(
    named: &mut Vec<u32>,
    told: &ToldCalls,
    group: u32,
) -> Result<(), AllocError>
    ensures { OnOk result (Notes told.now named.old.items (λ k. group == k) named.new.items) }
{
    if told.has(group) {
        return Ok(());
    }
    note(named, group)
}

/// Appends the line of a told call.
fn append_told(told: &ToldCall, out: &mut Vec<u8>) -> Result<(), AllocError>
    ensures { OnOk result (out.new.items ≡ out.old.items ++ told_line told.now) }
{
    let mut line: ArrayVec<u8, 160> = ArrayVec::new();
    append(&mut line, b"told g");
    append_number(&mut line, u64::from(told.group));
    append(&mut line, b" ");
    append_call(&mut line, &told.call);
    append(&mut line, b"\n");
    out.extend_from_slice(&line)?;
    Ok(())
}

/// For each group, by its number, the sheet that was judged last, if any: it reports no call.
#[derive(Drop)]
pub(crate) struct Judged {
    sheets: Vec<Option<Unreported>>,
}

impl Judged {
    /// Nothing was judged yet.
    pub(crate) fn new(alloc: Global) -> Judged {
        Judged {
            sheets: Vec::new(alloc),
        }
    }

    /// The sheet of a group that was judged last, if any.
    fn last_of(&self, number: usize) -> Option<Unreported> {
        match self.sheets.get(number) {
            Some(Some(unreported)) => Some(unreported.again()),
            _ => None,
        }
    }

    /// Keeps that a group's sheet reports no call. The error is want of memory.
    fn keep(&mut self, number: usize, unreported: Unreported) -> Result<(), AllocError> {
        for _ in self.sheets.len()..number.saturating_add(1) {
            self.sheets.push(None)?;
        }
        if let Some(last) = self.sheets.get_mut(number) {
            *last = Some(unreported);
        }
        Ok(())
    }
}

/// Has a watcher watch this group too, if it has a number.
fn watch_group(
    watcher: &mut BatchWatcher,
    groups: &NamedGroups,
    judged: &Judged,
    group: u32,
) -> Result<(), AllocError>
    ensures { OnOk result ((named : List ℕ) → AreWatched groups.now named watcher.old
        → AreWatched groups.now (named ++ group ∷ []) watcher.new) }
{
    match groups.number(group) {
        Some(number) => watcher.add(number, judged.last_of(number)),
        None => Ok(()),
    }
}

/// A watcher of a batch for these groups, which lines named.
pub(crate) fn watcher_of(
    alloc: Global,
    groups: &NamedGroups,
    named: &[u32],
    judged: &Judged,
) -> Result<BatchWatcher, AllocError>
    ensures { IfOk result (AreWatched groups.now named.now) }
{
    let mut watcher = BatchWatcher::new(alloc);
    for group in named {
        watch_group(&mut watcher, groups, judged, *group)?;
    }
    Ok(watcher)
}

/// The call to report of a group, by its number and its sheet, where none was told: the one that the watcher saw, where
/// the sheet shows it, and else the one that the sheet reports. A sheet that the watcher judged isn't judged again.
fn call_since(
    watcher: &BatchWatcher,
    here: usize,
    number: usize,
    sheet: &Sheet,
) -> Result<Call, Unreported>
    ensures call { IfOk result (λ call. (F : Facts) → IsEnds F sheet.now → IsWatched F (Some call)) }
    ensures none { IfErr result (λ unreported. (F : Facts) → IsEnds F sheet.now → IsWatched F None) }
    ensures exact { (seen : Option Sent) × IsSightOf watcher.now number seen
        × MatchResult result (λ call. IsToTell (facts_in sheet.now) seen (Some call))
        (λ unreported. IsToTell (facts_in sheet.now) seen None) }
{
    match watcher.seen_of(here, number) {
        Some(call) => judge(sheet, Some(call)),
        None => judge_unseen(watcher, here, number, sheet),
    }
}

/// The call that the sheet of a group reports of which the watcher saw none.
fn judge_unseen(
    watcher: &BatchWatcher,
    here: usize,
    number: usize,
    sheet: &Sheet,
) -> Result<Call, Unreported>
    ensures call { IfOk result (λ call. (F : Facts) → IsEnds F sheet.now → IsWatched F (Some call)) }
    ensures none { IfErr result (λ unreported. (F : Facts) → IsEnds F sheet.now → IsWatched F None) }
    ensures exact { MatchResult result (λ call. IsToTell (facts_in sheet.now) None (Some call))
        (λ unreported. IsToTell (facts_in sheet.now) None None) }
{
    sheet_has_facts(sheet);
    if let Some(unreported) = watcher.unreported_of(here, number) {
        if unreported.is_of(sheet) {
            return Err(unreported);
        }
    }
    judge(sheet, None)
}

/// Writes a call of a group that lines named, where none was told: the one that the watcher saw, where the group's
/// sheet shows it, and else the one that its facts report. No reception waits.
fn look_at(
    groups: &NamedGroups,
    watcher: &BatchWatcher,
    here: usize,
    group: u32,
    told: &mut ToldCalls,
    judged: &mut Judged,
    out: &mut Vec<u8>,
) -> Result<(), AllocError>
    requires ready { HoldsSome groups.now }
    requires ended { groups.now.batch.items ≡ [] }
    ensures { OnOk result ((said : List ReceiverLine) → Keeps groups.now said → is_named said group ≡ true
        → LooksAt said group told.old out.old.items told.new out.new.items) }
{
    if told.has(group) {
        return Ok(());
    }
    let Some(number) = groups.number(group) else {
        return Ok(());
    };
    match call_since(watcher, here, number, &groups.sheet_of(group)) {
        Ok(call) => {
            let one = ToldCall { group, call };
            append_told(&one, out)?;
            told.push(group, one.call)
        }
        Err(unreported) => {
            judged.keep(number, unreported)?;
            Ok(())
        }
    }
}

/// Writes the calls of these groups, which lines named, in their order. No reception waits.
pub(crate) fn look_through(
    groups: &NamedGroups,
    watcher: &BatchWatcher,
    named: &[u32],
    told: &mut ToldCalls,
    judged: &mut Judged,
    out: &mut Vec<u8>,
) -> Result<(), AllocError>
    requires ready { HoldsSome groups.now }
    requires ended { groups.now.batch.items ≡ [] }
    ensures { OnOk result ((said : List ReceiverLine) → Keeps groups.now said
        → ((k : ℕ) → is_among named.now k ≡ true → is_named said k ≡ true)
        → LooksThrough said named.now [] told.old out.old.items told.new out.new.items) }
{
    for (here, group) in named.iter().enumerate() {
        look_at(groups, watcher, here, *group, told, judged, out)?;
    }
    Ok(())
}
