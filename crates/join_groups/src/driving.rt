//! Running a command that writes a line of each group.
ghost use Rattle.std.specs.Prelude.{◌≤◌, All, IfOk};
ghost use Rattle.line_engine.specs.Runs.{IsRun};
ghost use Rattle.receiver_pool.specs.Groups.{facts_of_group, IsShort, ShowsNews};
ghost use Rattle.join_groups.specs.Meanings.{groups_meaning};

use crate::commands::WriteGroups;
use crate::telling::GroupWriter;
use byte_streams::{Sink, Source, Status};
use line_engine::drive;
use receiver_pool::{Gate, GroupReception, GroupSheet, Workers, pool_groups};
use slot_evidence::Sheet;
use std::alloc::{AllocError, Global};
use std::thread::Threads;

/// Reads lines of receptions and evidence to their end, and writes a line of each group that they name, by rising
/// number. So many workers, 1 to 64, join the receptions: one joins each at once, and several join batches of at
/// most 256. Each enters the gate first thing, once in each batch; one worker enters it before the first line.
///
/// | Status | What it says |
/// |---|---|
/// | 0 | all was written, and all is well with each group |
/// | 1 | all was written, and not all is well with some group |
/// | 3 | a line is ill-formed, and the line of this first fault was written |
/// | 4 | the source failed: nothing was written |
/// | 5 | the sink failed: a front of the text may have been written |
/// | 6 | there was no memory: nothing was written |
/// | 7 | a limit was passed, 65,536 lines, 4,200 bytes in one or 1,024 groups, and the line of this first fault was written |
#[inline(never)]
pub fn write_groups<R: Threads + Sync, S: Source, K: Sink, G: Gate, T: GroupWriter>(
    rt: &R,
    alloc: Global,
    source: &mut S,
    sink: &mut K,
    teller: T,
    workers: u32,
    gate: &G,
) -> Status
    requires { (1 ≤ workers) × (workers ≤ 64) }
    ensures { IsRun (groups_meaning T.tells) S.Source K.Sink source.old source.new sink.old sink.new result }
{
    let join = |known: &[Sheet], batch: &[GroupReception]| -> Result<Vec<GroupSheet>, AllocError>
        requires { (1 ≤ workers) × (workers ≤ 64) × All IsShort batch.now }
        ensures { IfOk result (λ v. ShowsNews known.now (facts_of_group batch.now) batch.now v.items) }
    { pool_groups(rt, alloc, known, batch, workers, gate) };
    let workers = Workers::new(workers, gate, join);
    let mut command = WriteGroups::new(alloc, workers, teller);
    drive(alloc, &mut command, source, sink)
}
