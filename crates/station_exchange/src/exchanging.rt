//! Running the command `exchange`.
ghost use Rattle.line_engine.specs.Runs.{IsRun};
ghost use Rattle.station_exchange.specs.Meaning.{exchange_meaning};

use crate::command::Exchanging;
use byte_streams::{Sink, Source, Status};
use line_engine::drive;
use std::alloc::Global;

/// Plays the ship and the coast station that a file names against each other. Its events happen in order: at one end,
/// or as calls that come from the other. What each gives is written before the next read, with `s ` or `c ` in front of
/// each line. A refused event and a delivery for which no call was sent are lines of the output, and the exchange goes
/// on.
///
/// | Status | What it says |
/// |---|---|
/// | 0 | all was written: no event was refused, and each delivery was that of a call |
/// | 1 | all was written, and some event was refused, or no call of some delivery's number was sent |
/// | 3 | a line is ill-formed at its point, and the line of this first fault was written after what the lines before it gave |
/// | 4 | the source failed: what the lines so far gave was written |
/// | 5 | the sink failed: a front of the text may have been written |
/// | 6 | there was no memory: a front of what the lines so far gave may have been written |
/// | 7 | a limit was passed, 65,536 lines or 4,200 bytes in one, and the line of this first fault was written after what the lines before it gave |
#[inline(never)]
pub fn exchange<S: Source, K: Sink>(alloc: Global, source: &mut S, sink: &mut K) -> Status
    ensures { IsRun exchange_meaning S.Source K.Sink source.old source.new sink.old sink.new result }
{
    let mut command = Exchanging::new(alloc);
    drive(alloc, &mut command, source, sink)
}
