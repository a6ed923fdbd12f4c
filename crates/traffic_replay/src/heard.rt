//! Heard groups: what receivers showed of a group since it was last heard.
ghost use Rattle.std.specs.Prelude.{◌≡◌, ℕ, [], ◌∷◌, IfOk, OnOk};
ghost use Rattle.slot_join.specs.Answer.{IsAnswer};
ghost use Rattle.input_lines.specs.PointLine.{traffic};
ghost use Rattle.traffic_lines.specs.declared.lines.Event.TheVariants.{Comes};
ghost use Rattle.traffic_lines.specs.declared.lines.Hearing.TheVariants as hearing;
ghost use Rattle.traffic_lines.specs.declared.lines.TrafficLine.TheVariants as station;
ghost use Rattle.join_groups.specs.Holds.{HoldsSome};
ghost use Rattle.traffic_replay.specs.Said.{Said};
ghost use Rattle.traffic_replay.specs.HeardGroups.{facts_since_heard};
ghost use Rattle.traffic_replay.specs.inside.Kept.{KeepsGroups};

use join_groups::NamedGroups;
use receiver_pool::Joiner;
use slot_join::{Joined, report};
use std::alloc::AllocError;

/// The answer to what was shown of a group since it was last heard. The open batch ends first, and the group's facts
/// then begin anew.
pub(crate) fn hear<W: Joiner>(
    groups: &mut NamedGroups,
    workers: &W,
    group: u32,
) -> Result<Joined, AllocError>
    requires ready { HoldsSome groups.old }
    requires joins { W.can_join workers.now }
    ensures answer { IfOk result (λ answer. (said : Said) → KeepsGroups groups.old said
        → IsAnswer (facts_since_heard group said) answer) }
    ensures anew { OnOk result ((said : Said) (at : ℕ) → KeepsGroups groups.old said
        → KeepsGroups groups.new (traffic (station.Event at (Comes (hearing.Heard group))) ∷ said)) }
    ensures ended { OnOk result (groups.new.batch.items ≡ []) }
{
    groups.close_batch(workers)?;
    Ok(report(&groups.take_out(group)))
}
