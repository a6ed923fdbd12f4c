//! The lines of `join` and `evidence`, and what groups take of them.
ghost use Rattle.std.specs.Prelude.{◌≡◌, ◌≢◌, ◌++◌, ◌∷◌, ◌<◌, ◌≤◌, length, [], List, IfErr, OnOk};
ghost use Rattle.input_lines.specs.ReceiverLine.{ReceiverLine as Line, IsLine};
ghost use Rattle.join_groups.specs.Holds.{HoldsSome};
ghost use Rattle.join_groups.specs.Meanings.{BringsTooMany};
ghost use Rattle.join_groups.specs.inside.Kept.{Keeps, IsRefused, IsShort, TakesRead, RefusesRead};

use crate::groups::{MOST_IN_BATCH, NamedGroups, Waiting};
use input_lines::{JoinLine, LineFault, join_line, packed_reception};
use line_engine::{LONGEST_LINE, Refusal};
use receiver_pool::{Joiner, Reading};
use std::alloc::Global;

/// Takes a line of receptions or evidence. A line that is ill-formed, or that brings a group too many, leaves the
/// groups as they were.
pub(crate) fn take_line<W: Joiner>(
    groups: &mut NamedGroups,
    workers: &W,
    alloc: Global,
    text: &[u8],
) -> Result<(), Refusal>
    requires short { length text.now ≤ LONGEST_LINE }
    requires ready { (said : List Line) × Keeps groups.old said }
    requires joins { W.can_join workers.now }
    ensures ok { OnOk result ((said : List Line) → Keeps groups.old said
        → (line : Line) × (IsLine line text.now × (BringsTooMany said line → ⊥)
        × Keeps groups.new (said ++ line ∷ []))) }
    ensures err { IfErr result (λ refusal. (said : List Line) → Keeps groups.old said
        → IsRefused said text.now refusal) }
    ensures kept { IfErr result (λ refusal. refusal ≢ Refusal.Memory → groups.new ≡ groups.old) }
    ensures few { OnOk result (length groups.old.batch.items < MOST_IN_BATCH
        → length groups.new.batch.items < MOST_IN_BATCH) }
{
    if let Some((group, elements)) = packed_reception(alloc, text)? {
        return groups.hear(workers, group, elements);
    }
    take_other(groups, workers, alloc, text)
}

/// The same, for any line.
#[inline(never)]
fn take_other<W: Joiner>(
    groups: &mut NamedGroups,
    workers: &W,
    alloc: Global,
    text: &[u8],
) -> Result<(), Refusal>
    requires short { length text.now ≤ LONGEST_LINE }
    requires ready { (said : List Line) × Keeps groups.old said }
    requires joins { W.can_join workers.now }
    ensures ok { OnOk result ((said : List Line) → Keeps groups.old said
        → (line : Line) × (IsLine line text.now × (BringsTooMany said line → ⊥)
        × Keeps groups.new (said ++ line ∷ []))) }
    ensures err { IfErr result (λ refusal. (said : List Line) → Keeps groups.old said
        → IsRefused said text.now refusal) }
    ensures kept { IfErr result (λ refusal. refusal ≢ Refusal.Memory → groups.new ≡ groups.old) }
    ensures few { OnOk result (length groups.old.batch.items < MOST_IN_BATCH
        → length groups.new.batch.items < MOST_IN_BATCH) }
{
    let read = match join_line(alloc, text) {
        Ok(read) => read,
        Err(LineFault::Column(n)) => return Err(Refusal::Column(n)),
        Err(LineFault::NoMemory) => return Err(Refusal::Memory),
    };
    take_read(groups, workers.reading(), Waiting::Never, read)?;
    groups.close_full(workers)?;
    Ok(())
}

/// Takes a line that was read, and leaves the batch open. A group too many leaves all as it was.
pub fn take_read(
    groups: &mut NamedGroups,
    reading: &Reading,
    waiting: Waiting,
    read: JoinLine,
) -> Result<(), Refusal>
    requires short { IsShort read }
    requires ready { HoldsSome groups.old }
    ensures ok { OnOk result (TakesRead groups.old read groups.new) }
    ensures err { IfErr result (RefusesRead groups.old read) }
    ensures kept { IfErr result (λ refusal. refusal ≢ Refusal.Memory → groups.new ≡ groups.old) }
{
    match read {
        JoinLine::Nothing => Ok(()),
        JoinLine::Reception { group, elements } => groups.wait(reading, waiting, group, elements),
        JoinLine::Evidence { group, sheet } => groups.meet(group, &sheet),
    }
}
