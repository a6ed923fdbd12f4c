//! The groups that lines named, and what is held of them.
ghost use Rattle.std.specs.Prelude.{◌≡◌, ◌≢◌, ◌⊎◌, ◌↔◌, ℕ, ◌+◌, ◌<◌, ◌≤◌, Bool, false, nat_le, length, [], None, Some, IfOk, IfErr, IfSome, OnOk};
ghost use Rattle.slot_evidence.specs.Facts.{Facts, facts_of, no_facts};
ghost use Rattle.slot_evidence.specs.Sheet.{IsEnds};
ghost use Rattle.receiver_pool.specs.Groups.{facts_of_group, ShowsNews};
ghost use Rattle.join_groups.specs.Holds.{Holds, HoldsSome, IsFull, named_with, facts_with, facts_without, number_in};

use line_engine::Refusal;
use phasing::LONGEST;
use receiver_pool::{
    GroupReception, GroupSheet, Joiner, Reading, meet_entries, meet_sheet, take_sheet,
};
use slot_evidence::{Reception, Sheet};
use std::alloc::{AllocError, Global};
use std::collections::BTreeMap;

/// An input names at most this many groups.
pub const MOST_GROUPS: usize = 1024;

/// A batch holds at most this many receptions.
pub const MOST_IN_BATCH: usize = 256;

/// The groups that lines named: each has a number, by first appearance, and a sheet with that number. Receptions wait
/// in a batch until several workers join it into the sheets; a single worker joins each at once.
#[derive(Drop)]
pub struct NamedGroups {
    pub(crate) numbers: BTreeMap<u32, usize>,
    pub(crate) sheets: Vec<Sheet>,
    batch: Vec<GroupReception>,
}

/// Which receptions wait for the batch, where one worker works alone.
#[derive(Clone, Copy, Debug, PartialEq, Eq)]
pub enum Waiting {
    /// None: each is read at once.
    Never,
    /// One that shows something new of its group.
    WithMore,
}

impl NamedGroups {
    /// No groups.
    pub fn new(alloc: Global) -> NamedGroups
        ensures holds { Holds result (λ k. false) (λ k. no_facts) }
        ensures empty { result.batch.items ≡ [] }
    {
        NamedGroups {
            numbers: BTreeMap::new(alloc),
            sheets: Vec::new(alloc),
            batch: Vec::new(alloc),
        }
    }

    /// The number of a group, which is given one where it has none.
    fn number_of(&mut self, group: u32) -> Result<usize, Refusal>
        ensures ok { IfOk result (λ n. (named : ℕ → Bool) (F : ℕ → Facts) → Holds self.old named F
            → (IsFull named group → ⊥) × Holds self.new (named_with group named) F
            × (number_in self.new group ≡ Some n)) }
        ensures err { IfErr result (λ refusal. (refusal ≡ Refusal.Memory)
            ⊎ ((named : ℕ → Bool) (F : ℕ → Facts) → Holds self.old named F
            → (refusal ≡ Refusal.TooManyGroups) × IsFull named group)) }
        ensures kept { IfErr result (λ refusal. refusal ≢ Refusal.Memory → self.new ≡ self.old) }
        ensures batch { self.new.batch ≡ self.old.batch }
    {
        match self.numbers.get(&group) {
            Some(number) => Ok(*number),
            None => self.begin(group),
        }
    }

    /// Gives the next number to a group that has none, with the sheet of no facts.
    fn begin(&mut self, group: u32) -> Result<usize, Refusal>
        requires { number_in self.old group ≡ None }
        ensures ok { IfOk result (λ n. (named : ℕ → Bool) (F : ℕ → Facts) → Holds self.old named F
            → (IsFull named group → ⊥) × Holds self.new (named_with group named) F
            × (number_in self.new group ≡ Some n)) }
        ensures err { IfErr result (λ refusal. (refusal ≡ Refusal.Memory)
            ⊎ ((named : ℕ → Bool) (F : ℕ → Facts) → Holds self.old named F
            → (refusal ≡ Refusal.TooManyGroups) × IsFull named group)) }
        ensures kept { IfErr result (λ refusal. refusal ≢ Refusal.Memory → self.new ≡ self.old) }
        ensures batch { self.new.batch ≡ self.old.batch }
    {
        if self.numbers.len() >= MOST_GROUPS {
            return Err(Refusal::TooManyGroups);
        }
        let number = self.sheets.len();
        self.sheets.push(Sheet::empty())?;
        match self.numbers.insert(group, number) {
            Ok(_) => Ok(number),
            Err(_) => Err(Refusal::Memory),
        }
    }

    /// Takes in what was shown of a group. A group too many leaves all as it was.
    pub fn meet(&mut self, group: u32, shown: &Sheet) -> Result<(), Refusal>
        requires { HoldsSome self.old }
        ensures ok { OnOk result ((named : ℕ → Bool) (F : ℕ → Facts) (G : Facts) → Holds self.old named F
            → IsEnds G shown.now
            → (IsFull named group → ⊥) × Holds self.new (named_with group named) (facts_with group G F)) }
        ensures err { IfErr result (λ refusal. (refusal ≡ Refusal.Memory)
            ⊎ ((named : ℕ → Bool) (F : ℕ → Facts) → Holds self.old named F
            → (refusal ≡ Refusal.TooManyGroups) × IsFull named group)) }
        ensures kept { IfErr result (λ refusal. refusal ≢ Refusal.Memory → self.new ≡ self.old) }
        ensures batch { self.new.batch ≡ self.old.batch }
    {
        let number = self.number_of(group)?;
        meet_sheet(&mut self.sheets, number, shown);
        Ok(())
    }

    /// Takes in what a receiver heard of a group, at most 1,000,000 elements: at once where one worker works alone, and
    /// else in a batch, which is joined when it is full. A group too many leaves all as it was.
    pub fn hear<W: Joiner>(
        &mut self,
        workers: &W,
        group: u32,
        heard: Reception,
    ) -> Result<(), Refusal>
        requires short { length heard ≤ LONGEST }
        requires ready { HoldsSome self.old }
        requires joins { W.can_join workers.now }
        ensures ok { OnOk result ((named : ℕ → Bool) (F : ℕ → Facts) → Holds self.old named F
            → (IsFull named group → ⊥)
            × Holds self.new (named_with group named) (facts_with group (facts_of heard) F)) }
        ensures err { IfErr result (λ refusal. (refusal ≡ Refusal.Memory)
            ⊎ ((named : ℕ → Bool) (F : ℕ → Facts) → Holds self.old named F
            → (refusal ≡ Refusal.TooManyGroups) × IsFull named group)) }
        ensures kept { IfErr result (λ refusal. refusal ≢ Refusal.Memory → self.new ≡ self.old) }

        // The open batch stays below its bound.
        ensures few { OnOk result (length self.old.batch.items < MOST_IN_BATCH
            → length self.new.batch.items < MOST_IN_BATCH) }
    {
        self.wait(workers.reading(), Waiting::Never, group, heard)?;
        self.close_full(workers)?;
        Ok(())
    }

    /// Takes in what a receiver heard of a group, at most 1,000,000 elements, and leaves the batch open. A reception that
    /// isn't read at once waits in the batch. A group too many leaves all as it was.
    pub(crate) fn wait(
        &mut self,
        reading: &Reading,
        waiting: Waiting,
        group: u32,
        heard: Reception,
    ) -> Result<(), Refusal>
        requires short { length heard ≤ LONGEST }
        requires ready { HoldsSome self.old }
        ensures ok { OnOk result ((named : ℕ → Bool) (F : ℕ → Facts) → Holds self.old named F
            → (IsFull named group → ⊥)
            × Holds self.new (named_with group named) (facts_with group (facts_of heard) F)) }
        ensures err { IfErr result (λ refusal. (refusal ≡ Refusal.Memory)
            ⊎ ((named : ℕ → Bool) (F : ℕ → Facts) → Holds self.old named F
            → (refusal ≡ Refusal.TooManyGroups) × IsFull named group)) }
        ensures kept { IfErr result (λ refusal. refusal ≢ Refusal.Memory → self.new ≡ self.old) }
    {
        if let Some(read) = self.read_at_once(reading, waiting, group, &heard) {
            return self.meet(group, &read);
        }
        let number = self.number_of(group)?;
        self.batch.push(GroupReception {
            group: number,
            reception: heard,
        })?;
        Ok(())
    }

    /// What a reception shows that waits for no batch, if it waits for none.
    fn read_at_once(
        &self,
        reading: &Reading,
        waiting: Waiting,
        group: u32,
        heard: &Reception,
    ) -> Option<Sheet>
        requires { length heard.now ≤ LONGEST }
        ensures { IfSome result (λ read. IsEnds (facts_of heard.now) read) }
    {
        let Some(read) = reading.read(heard) else {
            return None;
        };
        if waiting == Waiting::WithMore && self.shows_more(group, &read) {
            return None;
        }
        Some(read)
    }

    /// Whether a sheet shows something of a group beyond what is known of it.
    fn shows_more(&self, group: u32, shown: &Sheet) -> bool {
        let known = self.known_of(group);
        let mut all = known;
        all.meet(shown);
        all != known
    }

    /// What is known of a group, but for the receptions of the open batch.
    fn known_of(&self, group: u32) -> Sheet {
        match self.numbers.get(&group) {
            Some(number) => self.sheets.get(*number).copied().unwrap_or(Sheet::empty()),
            None => Sheet::empty(),
        }
    }

    /// Ends the batch: the workers join its receptions into the sheets of their groups.
    pub fn close_batch<W: Joiner>(&mut self, workers: &W) -> Result<(), AllocError>
        requires ready { HoldsSome self.old }
        requires joins { W.can_join workers.now }
        ensures holds { OnOk result ((named : ℕ → Bool) (F : ℕ → Facts) → Holds self.old named F
            → Holds self.new named F) }
        ensures empty { OnOk result (self.new.batch.items ≡ []) }
    {
        if !self.batch.is_empty() {
            let shown = workers.read_batch(&self.sheets, &self.batch)?;
            self.end_batch(shown)?;
        }
        Ok(())
    }

    /// Ends the batch if it holds as many receptions as it may.
    pub(crate) fn close_full<W: Joiner>(&mut self, workers: &W) -> Result<(), AllocError>
        requires ready { HoldsSome self.old }
        requires joins { W.can_join workers.now }
        ensures holds { OnOk result ((named : ℕ → Bool) (F : ℕ → Facts) → Holds self.old named F
            → Holds self.new named F) }
        ensures few { OnOk result (length self.new.batch.items < MOST_IN_BATCH) }
    {
        if self.batch.len() >= MOST_IN_BATCH {
            self.close_batch(workers)?;
        }
        Ok(())
    }

    /// Ends the batch, which showed this of its groups beside what was known of them.
    pub fn end_batch(&mut self, shown: Vec<GroupSheet>) -> Result<(), AllocError>
        requires ready { HoldsSome self.old }
        requires shown { ShowsNews self.old.sheets.items (facts_of_group self.old.batch.items) self.old.batch.items
            shown.items }
        ensures holds { OnOk result ((named : ℕ → Bool) (F : ℕ → Facts) → Holds self.old named F
            → Holds self.new named F) }
        ensures empty { OnOk result (self.new.batch.items ≡ []) }
    {
        meet_entries(&mut self.sheets, &shown);
        drop(shown);

        // The list moves to memory beyond the first batch's receptions. So their memory serves the next batches: at the
        // heap's end it would go back to the system, and come anew page by page, at each of them.
        self.batch.reserve_exact(MOST_IN_BATCH)?;
        self.batch.clear();
        Ok(())
    }

    /// The receptions of the open batch.
    pub fn batch(&self) -> &[GroupReception]
        ensures { result.now ≡ self.now.batch.items }
    {
        &self.batch
    }

    /// The sheet of each group, by its number, without the receptions of the open batch.
    pub fn sheets(&self) -> &[Sheet]
        ensures { result.now ≡ self.now.sheets.items }
    {
        &self.sheets
    }

    /// The number of a group; none, exactly where no line named it.
    pub fn number(&self, group: u32) -> Option<usize>
        ensures number { result ≡ number_in self.now group }
        ensures named { (named : ℕ → Bool) (F : ℕ → Facts) → Holds self.now named F
            → (result ≡ None ↔ named group ≡ false) }
    {
        self.numbers.get(&group).copied()
    }

    /// The sheet of a group, whose facts then begin anew. It is that of no facts where the group isn't known. The batch
    /// has ended.
    pub fn take_out(&mut self, group: u32) -> Sheet
        requires ready { HoldsSome self.old }
        requires ended { self.old.batch.items ≡ [] }
        ensures sheet { (named : ℕ → Bool) (F : ℕ → Facts) → Holds self.old named F → IsEnds (F group) result }
        ensures anew { (named : ℕ → Bool) (F : ℕ → Facts) → Holds self.old named F
            → Holds self.new named (facts_without group F) }
        ensures batch { self.new.batch ≡ self.old.batch }
    {
        match self.numbers.get(&group) {
            Some(number) => {
                let number = *number;
                take_sheet(&mut self.sheets, number)
            }
            None => Sheet::empty(),
        }
    }

    /// The sheet of a group; that of no facts where the group isn't known. The batch has ended.
    pub fn sheet_of(&self, group: u32) -> Sheet
        requires ready { HoldsSome self.now }
        requires ended { self.now.batch.items ≡ [] }
        ensures { (named : ℕ → Bool) (F : ℕ → Facts) → Holds self.now named F → IsEnds (F group) result }
    {
        match self.numbers.get(&group) {
            Some(number) => self.sheets[*number],
            None => Sheet::empty(),
        }
    }
}
