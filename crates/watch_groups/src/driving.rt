//! Running the command `watch`.
ghost use Rattle.std.specs.Prelude.{◌≤◌, All, IfOk};
ghost use Rattle.line_engine.specs.Runs.{IsRun};
ghost use Rattle.receiver_pool.specs.Groups.{facts_of_group, IsShort, ShowsNews};
ghost use Rattle.live_watch.specs.Batches.{HasWatched};
ghost use Rattle.watch_groups.specs.Meaning.{watch_meaning};

use crate::command::WatchGroups;
use byte_streams::{Sink, Source, Status};
use line_engine::drive;
use live_watch::{BatchWatcher, WatchedWorkers, watch_batch};
use receiver_pool::{Gate, GroupReception, GroupSheet};
use slot_evidence::Sheet;
use std::alloc::{AllocError, Global};
use std::thread::Threads;

/// Reads lines of receptions and evidence to their end. As soon as a batch ends, it writes a call of each group that
/// the lines so far report and of which none was told. At the input's end it does so once more, and then writes the
/// answer of each group, by rising number. A batch ends at each 256th reception, and after the lines of each read: so a
/// call is told before more is read. Told lines of one batch come in the order in which its lines first named their
/// groups. So many workers, 1 to 64, read the receptions of a batch, and a watcher beside them goes round their boards,
/// with one fork: it may see a group's call while they still post. One worker enters the gate before the first line and
/// reads each reception at once. Those that show something new of a group of which no call was told make up its
/// batches, in which it enters the gate again, as several workers do.
///
/// | Status | What it says |
/// |---|---|
/// | 0 | all was written, and a call was reported of each group |
/// | 1 | all was written, and no call was reported of some group |
/// | 3 | a line is ill-formed: calls may have been told, and the line of this first fault was written after them |
/// | 4 | the source failed: what was told so far was written |
/// | 5 | the sink failed: a front of the text may have been written |
/// | 6 | there was no memory: a front of what was told so far may have been written |
/// | 7 | a limit was passed, 65,536 lines, 4,200 bytes in one or 1,024 groups: as with 3 |
#[inline(never)]
pub fn watch_groups<R: Threads + Sync, S: Source, K: Sink, G: Gate>(
    rt: &R,
    alloc: Global,
    source: &mut S,
    sink: &mut K,
    workers: u32,
    gate: &G,
) -> Status
    requires { (1 ≤ workers) × (workers ≤ 64) }
    ensures { IsRun watch_meaning S.Source K.Sink source.old source.new sink.old sink.new result }
{
    let join = |known: &[Sheet], batch: &[GroupReception], watcher: BatchWatcher| -> Result<
        (Vec<GroupSheet>, BatchWatcher),
        AllocError,
    >
        requires { (1 ≤ workers) × (workers ≤ 64) × All IsShort batch.now }
        ensures { IfOk result (λ v. ShowsNews known.now (facts_of_group batch.now) batch.now v.0.items
            × HasWatched watcher v.1 known.now batch.now) }
    { watch_batch(rt, alloc, known, batch, workers, gate, watcher) };
    let workers = WatchedWorkers::new(workers, gate, join);
    let mut command = WatchGroups::new(alloc, workers);
    drive(alloc, &mut command, source, sink)
}
