//! Running the command `make`.
ghost use Rattle.std.specs.Prelude.{◌≡◌, ◌≢◌, ◌⊎◌, ◌≤◌, List, if◌then◌else◌};
ghost use Rattle.std.specs.List.{list_all};
ghost use Rattle.byte_streams.specs.Streams.{Rises, SeenBefore};
ghost use Rattle.input_lines.specs.ReceiverLine.{ReceiverLine};
ghost use Rattle.line_engine.specs.Endings.{IsFinished};
ghost use Rattle.slot_join.specs.Answer.{is_reported};
ghost use Rattle.generated_join.specs.Generator.{generated};
ghost use Rattle.generated_join.specs.Summary.{IsSummary};
ghost use Rattle.dsc_cmd.specs.Plans.{WritesSummary, CutsOffSummary};

use crate::running::write_flushed;
use byte_streams::{Failed, Sink, Status};
use generated_join::{Summary, summary_of};
use receiver_pool::Gate;
use std::alloc::{AllocError, Global};

/// The status of a join with this summary: 0 where a call was reported of every group, and else 1.
fn status_of(summary: &Summary) -> Status
    ensures which { IsFinished result }
    ensures whole { (said : List ReceiverLine) (is : IsSummary said summary.now)
        → result ≡ (if list_all (λ one. is_reported one.answer) is.all then 0 else 1) }
{
    Status::of(summary.is_whole())
}

/// Writes the summary of so many generated groups. It ends with status 0 where a call was reported of every group, with
/// 1 where not, or with that of a write fault.
fn write_summary<K: Sink>(groups: u16, summary: &Summary, sink: &mut K) -> Status
    requires { IsSummary (generated groups) summary.now }
    ensures which { IsFinished result ⊎ (result ≡ 5) }
    ensures done { IsFinished result
        → WritesSummary groups (K.written sink.old) (K.written sink.new) (K.flushed sink.new) result }
    ensures sound { IsFinished result → K.faults sink.new ≡ K.faults sink.old }
    ensures cut { result ≡ 5 → CutsOffSummary groups (K.written sink.old) (K.written sink.new) }
    ensures cause { result ≡ 5 → Rises (K.faults sink.old) (K.faults sink.new) }
    ensures unflushed { result ≡ 5 → K.flushed sink.new ≡ K.flushed sink.old }
    ensures told { SeenBefore (K.written sink.old) (K.written sink.new) }
{
    match write_flushed(sink, &summary.text()) {
        Ok(()) => status_of(summary),
        Err(Failed) => Status::new(5),
    }
}

/// Has one worker join so many generated groups, at most 1,000, and writes the summary. It ends with status 0 where a
/// call was reported of every group, with 1 where not, with that of a write fault, or with 6, having written nothing,
/// where there was no memory.
#[inline(never)]
pub(crate) fn make<K: Sink, G: Gate>(alloc: Global, groups: u16, sink: &mut K, gate: &G) -> Status
    requires { groups ≤ 1000 }
    ensures which { IsFinished result ⊎ (result ≡ 5) ⊎ (result ≡ 6) }
    ensures done { IsFinished result
        → WritesSummary groups (K.written sink.old) (K.written sink.new) (K.flushed sink.new) result }
    ensures sound { result ≢ 5 → K.faults sink.new ≡ K.faults sink.old }
    ensures cut { result ≡ 5 → CutsOffSummary groups (K.written sink.old) (K.written sink.new) }
    ensures cause { result ≡ 5 → Rises (K.faults sink.old) (K.faults sink.new) }
    ensures unflushed { result ≡ 5 → K.flushed sink.new ≡ K.flushed sink.old }
    ensures unwritten { result ≡ 6 → sink.new ≡ sink.old }
    ensures told { SeenBefore (K.written sink.old) (K.written sink.new) }
{
    match summary_of(alloc, groups, gate) {
        Ok(summary) => write_summary(groups, &summary, sink),
        Err(AllocError) => Status::new(6),
    }
}
