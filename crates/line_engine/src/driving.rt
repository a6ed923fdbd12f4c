//! A run: the lines of a source to a command, and its text to a sink.
ghost use Rattle.std.specs.Prelude.{◌≡◌, ◌≢◌, ◌⊎◌, ℕ, List, [], OnOk, IfErr, IsErrOf};
ghost use Rattle.byte_streams.specs.Streams.{Rises, SeenBefore};
ghost use Rattle.line_engine.specs.declared.halts.Halt.TheVariants as halts;
ghost use Rattle.line_engine.specs.Meaning.{IsQuiet};
ghost use Rattle.line_engine.specs.Endings.{IsFinished, IsOfFault, IsBrokenOff, TakesAtMost, TellsWhole, TellsFault, TellsSoFar, CutsOff, TellsFront};
ghost use Rattle.line_engine.specs.Runs.{IsRun};
ghost use Rattle.line_engine.specs.inside.Progress.{RunsThrough, RunsInto};

use crate::bounds::MOST_TAKEN;
use crate::command::Command;
use crate::faults::{fault_status, put_fault};
use crate::halts::Halt;
use crate::telling::{write_ending, write_pending};
use crate::walk::{check_open, pause, take_last, take_lines};
use crate::window::Window;
use byte_streams::{Failed, Sink, Source, Status};
use std::alloc::{AllocError, Global};

/// Reads a source to its end and gives its lines to the command. What is pending is written before each read.
fn take_input<C: Command, S: Source, K: Sink>(
    alloc: Global,
    command: &mut C,
    out: &mut Vec<u8>,
    source: &mut S,
    sink: &mut K,
) -> Result<(), Halt>
    requires fresh { C.stands_for command.old [] [] }
    requires empty { out.old.items ≡ [] }
    ensures through { OnOk result (RunsThrough C.meaning C.stands_for K.written K.faults (S.left source.old)
        (S.left source.new) sink.old command.new out.new.items sink.new) }
    ensures stopped { IfErr result (λ halt. RunsInto C.meaning K.written K.faults (S.left source.old)
        (S.left source.new) sink.old out.new.items sink.new halt) }
    ensures cause { IsErrOf result Halt.Read → Rises (S.faults source.old) (S.faults source.new) }
    ensures sound { (IsErrOf result Halt.Read → ⊥) → S.faults source.new ≡ S.faults source.old }
    ensures not_flushed { K.flushed sink.new ≡ K.flushed sink.old }
{
    let mut window = Window::new(alloc)?;
    let mut count = 0;
    loop {
        write_pending(out, sink)?;
        match window.read(source) {
            Ok(0) => return take_last(command, count, window.bytes(), out),
            Ok(_) => {}
            Err(Failed) => return Err(Halt::Read),
        }
        let walked = take_lines(command, count, window.bytes(), out, sink)?;
        window.keep_last(walked.left);
        check_open(walked.count, walked.left)?;
        pause(command, count, walked.count, out)?;
        count = walked.count;
    }
}

/// Gives the lines of a source to a command, and has each part of the run's promise as a clause.
fn run_lines<C: Command, S: Source, K: Sink>(
    alloc: Global,
    command: &mut C,
    source: &mut S,
    sink: &mut K,
) -> Status
    requires fresh { C.stands_for command.old [] [] }

    // What was written, by the status.
    ensures whole { IsFinished result
        → TellsWhole C.meaning (S.left source.old) (S.left source.new) (K.written sink.old) (K.written sink.new)
        (K.flushed sink.new) result }
    ensures faulty { IsOfFault result
        → TellsFault C.meaning (S.left source.old) (S.left source.new) (K.written sink.old) (K.written sink.new)
        (K.flushed sink.new) result }
    ensures stopped { result ≡ 4
        → TellsSoFar C.meaning (S.left source.old) (S.left source.new) (K.written sink.old) (K.written sink.new) }
    ensures cut { result ≡ 5
        → CutsOff C.meaning (S.left source.old) (S.left source.new) (K.written sink.old) (K.written sink.new) }
    ensures memory { result ≡ 6
        → TellsFront C.meaning (S.left source.old) (S.left source.new) (K.written sink.old) (K.written sink.new) }

    // A command that gives nothing before its input's end leaves the sink alone until then.
    ensures unwritten { IsQuiet C.meaning → (result ≡ 4) ⊎ (result ≡ 6) → sink.new ≡ sink.old }

    // Nothing is flushed but at the end of a run that isn't broken off.
    ensures unflushed { IsBrokenOff result → K.flushed sink.new ≡ K.flushed sink.old }

    // No more is read than the limits ask for.
    ensures bounded { TakesAtMost (S.left source.old) (S.left source.new) MOST_TAKEN }

    // The causes of the faults.
    ensures read_cause { result ≡ 4 → Rises (S.faults source.old) (S.faults source.new) }
    ensures read_sound { result ≢ 4 → S.faults source.new ≡ S.faults source.old }
    ensures write_cause { result ≡ 5 → Rises (K.faults sink.old) (K.faults sink.new) }
    ensures write_sound { result ≢ 5 → K.faults sink.new ≡ K.faults sink.old }
    ensures told { SeenBefore (S.left source.old) (S.left source.new) × SeenBefore (K.written sink.old) (K.written sink.new) }

    // Without a fault of the streams there is no other ending than these.
    ensures range { IsFinished result ⊎ IsOfFault result ⊎ (result ≡ 4) ⊎ (result ≡ 5) ⊎ (result ≡ 6) }
    ensures completes { (Rises (S.faults source.old) (S.faults source.new) → ⊥)
        → (Rises (K.faults sink.old) (K.faults sink.new) → ⊥)
        → IsFinished result ⊎ IsOfFault result ⊎ (result ≡ 6) }
{
    let mut out = Vec::new(alloc);
    match take_input(alloc, command, &mut out, source, sink) {
        Ok(()) => match command.finish(&mut out) {
            Ok(status) => write_ending(sink, &out, b"", status),
            Err(AllocError) => Status::new(6),
        },
        Err(Halt::Fault(first)) => write_ending(
            sink,
            &out,
            &put_fault(&first),
            fault_status(&first.fault),
        ),
        Err(Halt::Read) => Status::new(4),
        Err(Halt::Write) => Status::new(5),
        Err(Halt::Memory) => Status::new(6),
    }
}

/// Reads a source to its end and gives its lines to a command, one after the other; writes what the command gives,
/// and the line of the first fault; and ends with a status.
///
/// After the lines of a read the command may say more. What is given is written before each read, and as soon as 64 KiB
/// of it are pending. A fault is named as soon as its line is known. One buffer of 128 KiB, an open line and the
/// pending text are kept of an input, however long it is. After the run the command is done with.
///
/// | Status | What it says |
/// |---|---|
/// | 0, 1 | the command ended its input, and all it gave was written and flushed |
/// | 3 | a line is ill-formed, and the line of this first fault was written after what the lines before it gave |
/// | 4 | the source failed: what the lines so far gave was written |
/// | 5 | the sink failed: a front of the text may have been written |
/// | 6 | there was no memory: a front of what the lines so far gave may have been written |
/// | 7 | a limit was passed, and the line of this first fault was written after what the lines before it gave |
pub fn drive<C: Command, S: Source, K: Sink>(
    alloc: Global,
    command: &mut C,
    source: &mut S,
    sink: &mut K,
) -> Status
    requires { C.stands_for command.old [] [] }
    ensures { IsRun C.meaning S.Source K.Sink source.old source.new sink.old sink.new result }
{
    run_lines(alloc, command, source, sink)
}
