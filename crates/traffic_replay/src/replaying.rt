//! Running the command `replay`.
ghost use Rattle.std.specs.Prelude.{◌≤◌, All, IfOk};
ghost use Rattle.line_engine.specs.Runs.{IsRun};
ghost use Rattle.receiver_pool.specs.Groups.{facts_of_group, IsShort, ShowsNews};
ghost use Rattle.traffic_replay.specs.Meaning.{replay_meaning};

use crate::command::Replaying;
use byte_streams::{Sink, Source, Status};
use line_engine::drive;
use receiver_pool::{Gate, GroupReception, GroupSheet, Workers, pool_groups};
use slot_evidence::Sheet;
use std::alloc::{AllocError, Global};
use std::thread::Threads;

/// Replays a traffic file: the ship that it names goes through its events in order, and what it does at each, or the
/// refusal of it, is written before the next read. A refused event is a line of the output, and the replay goes on.
///
/// | Status | What it says |
/// |---|---|
/// | 0 | all was written: each event was accepted, and of each heard group a call was reported |
/// | 1 | all was written, and some event was refused, or some heard group has another answer |
/// | 3 | a line is ill-formed at its point, and the line of this first fault was written after what the lines before it gave |
/// | 4 | the source failed: what the lines so far gave was written |
/// | 5 | the sink failed: a front of the text may have been written |
/// | 6 | there was no memory: a front of what the lines so far gave may have been written |
/// | 7 | a limit was passed, 65,536 lines, 4,200 bytes in one or 1,024 groups, and the line of this first fault was written after what the lines before it gave |
#[inline(never)]
pub fn replay<R: Threads + Sync, S: Source, K: Sink, G: Gate>(
    rt: &R,
    alloc: Global,
    source: &mut S,
    sink: &mut K,
    workers: u32,
    gate: &G,
) -> Status
    requires { (1 ≤ workers) × (workers ≤ 64) }
    ensures { IsRun replay_meaning S.Source K.Sink source.old source.new sink.old sink.new result }
{
    let join = |known: &[Sheet], batch: &[GroupReception]| -> Result<Vec<GroupSheet>, AllocError>
        requires { (1 ≤ workers) × (workers ≤ 64) × All IsShort batch.now }
        ensures { IfOk result (λ v. ShowsNews known.now (facts_of_group batch.now) batch.now v.items) }
    { pool_groups(rt, alloc, known, batch, workers, gate) };
    let workers = Workers::new(workers, gate, join);
    let mut command = Replaying::new(alloc, workers);
    drive(alloc, &mut command, source, sink)
}
