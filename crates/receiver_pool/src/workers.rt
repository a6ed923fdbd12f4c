//! Those who join receptions.
ghost use Rattle.std.specs.Prelude.{◌≡◌, ◌≤◌, ℕ, List, All, IfOk, IfSome, length};
ghost use Rattle.slot_evidence.specs.Facts.{Facts, facts_of, union};
ghost use Rattle.slot_evidence.specs.Sheet.{IsEnds};
ghost use Rattle.receiver_pool.specs.declared.group_entries.GroupReception.{GroupReception};
ghost use Rattle.receiver_pool.specs.Groups.{facts_of_group, AreSheets, IsOneOf, IsShort, ShowsNews};
ghost use Rattle.receiver_pool.specs.Joining.{JoinsBatches};

use crate::batches::meet_sheet;
use crate::gate::{Entered, Gate, enter};
use crate::group_entries::{GroupReception, GroupSheet};
use phasing::LONGEST;
use slot_evidence::{Reception, Sheet, ends_are_kept, shown_by};
use std::alloc::AllocError;

/// How receptions are read.
#[derive(Drop)]
pub enum Reading {
    /// Each at once, by one worker who works alone and has entered the gate.
    AtOnce(Entered),
    /// In batches, by several.
    InBatches,
}

impl Reading {
    /// So many workers. One enters the gate here; several enter it in each batch.
    pub fn of<G: Gate>(workers: u32, gate: &G) -> Reading {
        if workers == 1 {
            Reading::AtOnce(enter(gate, 0, 1))
        } else {
            Reading::InBatches
        }
    }

    /// What a reception shows that is read at once.
    pub fn read(&self, heard: &Reception) -> Option<Sheet>
        requires { length heard.now ≤ LONGEST }
        ensures { IfSome result (λ sheet. IsEnds (facts_of heard.now) sheet) }
    {
        match self {
            Reading::AtOnce(entered) => Some(read_by(entered, heard)),
            Reading::InBatches => None,
        }
    }
}

/// Those who read receptions for the sheets of their groups.
pub trait Joiner: Drop {
    /// Their way of reading batches reads them.
    ghost can_join: { Self → Type 0 };

    /// How they read receptions.
    fn reading(&self) -> &Reading;

    /// What a batch of receptions shows of each group beside what is known of it, which is the sheet with the group's
    /// number. The error is want of memory.
    fn read_batch(
        &self,
        known: &[Sheet],
        batch: &[GroupReception],
    ) -> Result<Vec<GroupSheet>, AllocError>
        requires joins { can_join self.now }
        requires short { All IsShort batch.now }
        ensures { IfOk result (λ v. ShowsNews known.now (facts_of_group batch.now) batch.now v.items) };
}

/// Those who join receptions: one worker, who joins each at once, or several, who read batches by this function, as
/// `pool_groups` does.
#[derive(Drop)]
pub struct Workers<J> {
    reading: Reading,
    pub join: J,
}

impl<J: Drop> Workers<J> {
    /// So many workers, who enter the gate as `Reading::of` says.
    pub fn new<G: Gate>(workers: u32, gate: &G, join: J) -> Workers<J>
        ensures { result.join ≡ join }
    {
        Workers {
            reading: Reading::of(workers, gate),
            join,
        }
    }
}

impl<J: Drop + Fn(&[Sheet], &[GroupReception]) -> Result<Vec<GroupSheet>, AllocError>> Joiner
    for Workers<J> {
    ghost can_join = { λ workers. JoinsBatches (J.pre workers.join) (J.post workers.join) };

    fn reading(&self) -> &Reading {
        &self.reading
    }

    fn read_batch(
        &self,
        known: &[Sheet],
        batch: &[GroupReception],
    ) -> Result<Vec<GroupSheet>, AllocError> {
        (self.join)(known, batch)
    }
}

/// What a worker who has entered the gate reads of a reception.
fn read_by(_entered: &Entered, heard: &Reception) -> Sheet
    requires { length heard.now ≤ LONGEST }
    ensures { IsEnds (facts_of heard.now) result }
{
    shown_by(heard)
}

/// Takes what a batch showed of its groups, beside what their sheets keep, into these sheets.
pub fn meet_entries(sheets: &mut [Sheet], entries: &[GroupSheet])
    requires { All (IsOneOf (length sheets.old)) entries.now }
    ensures { (F G : ℕ → Facts) (batch : List GroupReception) (n : ℕ) → AreSheets F sheets.old n
        → ShowsNews sheets.old G batch entries.now → AreSheets (λ k. union (F k) (G k)) sheets.new n }
{
    ends_are_kept();
    for entry in entries {
        meet_sheet(sheets, entry.group, &entry.sheet);
    }
}
