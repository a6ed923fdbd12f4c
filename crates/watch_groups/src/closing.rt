//! The end of a batch that a watcher looks at.
ghost use Rattle.std.specs.Prelude.{◌≡◌, ℕ, Bool, [], IfOk, OnOk};
ghost use Rattle.slot_evidence.specs.Facts.{Facts};
ghost use Rattle.live_watch.specs.Batches.{HasWatched};
ghost use Rattle.join_groups.specs.Holds.{Holds, HoldsSome};

use join_groups::NamedGroups;
use live_watch::{BatchWatcher, WatchedJoiner};
use std::alloc::AllocError;

/// Ends the batch as `NamedGroups::close_batch` does, with workers whose boards a watcher looks at, and gives the
/// watcher back.
pub(crate) fn close_watched<W: WatchedJoiner>(
    groups: &mut NamedGroups,
    workers: &W,
    watcher: BatchWatcher,
) -> Result<BatchWatcher, AllocError>
    requires ready { HoldsSome groups.old }
    requires joins { W.can_join workers.now }
    ensures holds { OnOk result ((named : ℕ → Bool) (F : ℕ → Facts) → Holds groups.old named F
        → Holds groups.new named F) }
    ensures empty { OnOk result (groups.new.batch.items ≡ []) }
    ensures watched { IfOk result (λ after. HasWatched watcher after groups.old.sheets.items groups.old.batch.items) }
{
    if groups.batch().is_empty() {
        return Ok(watcher);
    }
    let (shown, watcher) = workers.read_watched(groups.sheets(), groups.batch(), watcher)?;
    groups.end_batch(shown)?;
    Ok(watcher)
}
