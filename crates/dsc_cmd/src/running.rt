//! Running the command that words name.
ghost use Rattle.std.specs.Prelude.{◌≡◌, ◌⊎◌, ℕ, [], OnOk, OnErr};
ghost use Rattle.byte_streams.specs.Streams.{Rises, SeenBefore};
ghost use Rattle.line_engine.specs.Endings.{IsFinished, IsBrokenOff, Writes, WritesFront, TakesAtMost};
ghost use Rattle.line_engine.specs.Runs.{IsRun};
ghost use Rattle.command_line.specs.Words.{IsInRange, IsPlan};
ghost use Rattle.command_line.specs.declared.plans.Plan.TheVariants.{Join as joins, Replay as replays, Make as makes, Capture as captures, Watch as watches, Exchange as exchanges};
ghost use Rattle.command_line.specs.declared.plans.Plan.{Plan as Planned};
ghost use Rattle.dsc_cmd.specs.Plans.{meaning_of, input_of, source_of, words_refused, HasOneOutput, WritesSummary, WritesFrontOfOutput};
ghost use Rattle.dsc_cmd.specs.Promises.{spoken, KeepsWords, Runs};
ghost use Rattle.stream_capture.specs.Telling.{capture_meaning};
ghost use Rattle.dsc_cmd.specs.Sent.{sent_join};
ghost use Rattle.dsc_cmd.specs.ToldSent.{sent_meaning};
ghost use Rattle.dsc_cmd.specs.StartsHeard.{heard_meaning};
ghost use Rattle.dsc_cmd.specs.LegalExchanges.{legal_exchange};
ghost use Rattle.dsc_cmd.specs.LegalReplays.{legal_replay};

use crate::laws::inputs_have_one_output;
use crate::making::make;
use byte_streams::{Failed, Sink, Source, Status, write_all};
use command_line::{Plan, PlanError, one_plan, plan_of};
use encode_calls::{Encode, LongDots, ShortDots};
use join_groups::{WriteAnswers, WriteEvidence, write_groups};
use line_engine::{Command, MOST_TAKEN, drive};
use live_watch::told_calls;
use long_capture::start_reports_the_call;
use receiver_pool::Gate;
use sentence_files::{Logs, Sentences};
use slot_evidence::ends_are_kept;
use slot_join::{
    alike_facts_have_one_answer, heard_calls_show_no_other, intact_copies_report_the_call,
    sent_call_is_answered,
};
use station_exchange::exchange;
use std::alloc::Global;
use std::thread::Threads;
use stream_capture::Capturing;
use traffic_replay::replay;
use watch_groups::watch_groups;

/// Writes a text and flushes the sink.
pub(crate) fn write_flushed<K: Sink>(sink: &mut K, text: &[u8]) -> Result<(), Failed>
    ensures ok { OnOk result (Writes (K.written sink.old) (K.written sink.new) (K.flushed sink.new) text.now) }
    ensures sound { OnOk result (K.faults sink.new ≡ K.faults sink.old) }
    ensures front { OnErr result (WritesFront (K.written sink.old) (K.written sink.new) text.now) }
    ensures cause { OnErr result (Rises (K.faults sink.old) (K.faults sink.new)) }
    ensures unflushed { OnErr result (K.flushed sink.new ≡ K.flushed sink.old) }
    ensures told { SeenBefore (K.written sink.old) (K.written sink.new) }
{
    write_all(sink, text)?;
    sink.flush()
}

/// Refuses the words: writes the line that says so, and ends with status 2, or with that of a write fault.
fn refuse<K: Sink>(sink: &mut K) -> Status
    ensures which { (result ≡ 2) ⊎ (result ≡ 5) }
    ensures done { result ≡ 2 → Writes (K.written sink.old) (K.written sink.new) (K.flushed sink.new) words_refused }
    ensures sound { result ≡ 2 → K.faults sink.new ≡ K.faults sink.old }
    ensures cut { result ≡ 5 → WritesFront (K.written sink.old) (K.written sink.new) words_refused }
    ensures cause { result ≡ 5 → Rises (K.faults sink.old) (K.faults sink.new) }
    ensures unflushed { result ≡ 5 → K.flushed sink.new ≡ K.flushed sink.old }
    ensures told { SeenBefore (K.written sink.old) (K.written sink.new) }
{
    match write_flushed(sink, b"dsc: words refused\n") {
        Ok(()) => Status::new(2),
        Err(Failed) => Status::new(5),
    }
}

// Each command runs in a frame of its own: what one keeps on the stack isn't there while another runs.

/// Drives a command.
#[inline(never)]
fn drive_alone<C: Command, S: Source, K: Sink>(
    alloc: Global,
    command: C,
    source: &mut S,
    sink: &mut K,
) -> Status
    requires { C.stands_for command [] [] }
    ensures { IsRun C.meaning S.Source K.Sink source.old source.new sink.old sink.new result }
{
    let mut command = command;
    drive(alloc, &mut command, source, sink)
}

/// Runs `capture`, whose command holds a window of the stream.
#[inline(never)]
fn capture<S: Source, K: Sink>(alloc: Global, source: &mut S, sink: &mut K) -> Status
    ensures { IsRun capture_meaning S.Source K.Sink source.old source.new sink.old sink.new result }
{
    let mut command = Capturing::new();
    drive(alloc, &mut command, source, sink)
}

/// Runs the command of a plan.
fn execute<R: Threads + Sync, S: Source, K: Sink, G: Gate>(
    rt: &R,
    alloc: Global,
    plan: Plan,
    source: &mut S,
    sink: &mut K,
    gate: &G,
) -> Status
    requires { IsInRange plan }
    ensures run { IsRun (meaning_of plan) (source_of plan S.Source) K.Sink source.old source.new sink.old sink.new
        result }
    ensures bounded { TakesAtMost (S.left source.old) (S.left source.new) MOST_TAKEN }
    ensures told { SeenBefore (S.left source.old) (S.left source.new) }
    ensures unread { (n : ℕ) → plan ≡ makes n
        → (source.new ≡ source.old) × (IsFinished result ⊎ (result ≡ 5) ⊎ (result ≡ 6)) }
{
    match plan {
        Plan::Join { workers } => write_groups(
            rt,
            alloc,
            source,
            sink,
            WriteAnswers,
            u32::from(workers),
            gate,
        ),
        Plan::Evidence { workers } => write_groups(
            rt,
            alloc,
            source,
            sink,
            WriteEvidence,
            u32::from(workers),
            gate,
        ),
        Plan::Encode { long: false } => drive_alone(alloc, Encode::new(ShortDots), source, sink),
        Plan::Encode { long: true } => drive_alone(alloc, Encode::new(LongDots), source, sink),
        Plan::Sentences => drive_alone(alloc, Sentences::new(), source, sink),
        Plan::Replay { workers } => replay(rt, alloc, source, sink, u32::from(workers), gate),
        Plan::Make { groups } => make(alloc, groups, sink, gate),
        Plan::Capture => capture(alloc, source, sink),
        Plan::Watch { workers } => watch_groups(rt, alloc, source, sink, u32::from(workers), gate),
        Plan::Exchange => exchange(alloc, source, sink),
        Plan::Book => drive_alone(alloc, Logs::new(alloc), source, sink),
    }
}

/// Runs the command that the words name, the program's name first: reads from the source, writes to the sink, and
/// ends with a status.
///
/// | Words | What is written |
/// |---|---|
/// | `join [--workers N]` | for each group that a line of receptions or evidence names, by rising number, the line of the answer to all its facts |
/// | `evidence [--workers N]` | for each such group the line of evidence that stands for all its lines |
/// | `encode [--dots D]` | for each line of a call the line of a reception that heard its whole transmission |
/// | `sentences` | for each line of a call its DSC sentence, and the DSE sentence of its expansion; for each sentence a verdict |
/// | `replay [--workers N]` | for each event line of a traffic file what the station does, or why it refuses the event |
/// | `capture` | for each start of a stream of elements its origin and the answer to its facts |
/// | `watch [--workers N]` | a call of each group as soon as the lines so far report it, before each read and at each 256 receptions, and at the end what `join` writes |
/// | `exchange` | for each event line of a file of an exchange what it gives at its end, the ship or the coast station: what the end does, or why it refuses the event, or that no such call was sent |
/// | `book` | each row that the DSC sentences of logs give, once, by rising order: who was in distress, who acknowledged and relayed it |
/// | `make N` | the summary of the join of N generated groups, of four receptions each; nothing is read |
///
/// `--workers N` takes 1 to 64 workers, and 1 where it isn't given; it changes no answer. `make N` takes 1 to 1,000
/// groups. `--dots D` takes 20 or 200 dots, and 20 where it isn't given.
///
/// | Status | What it says |
/// |---|---|
/// | 0 | all was written: in `join`, `watch` and `make` a call was reported of each group |
/// | 1 | all was written, and some group has another answer; in `sentences` and `book` some sentence was refused; in `replay` some event was refused, or some heard group has another answer; in `capture` some start has another answer; in `exchange` some event was refused, or no call of some delivery's number was sent |
/// | 2 | the words are no command: nothing was read, and `dsc: words refused` was written |
/// | 3 | a line is ill-formed, and the line of this first fault was written, as `dsc: line 3 column 7` |
/// | 4 | the source failed: what the lines so far gave was written |
/// | 5 | the sink failed: a front of the text may have been written |
/// | 6 | there was no memory: a front of what the lines so far gave may have been written |
/// | 7 | a limit was passed, 65,536 lines, 4,200 bytes in one or 1,024 groups, and the line of this first fault was written |
///
/// `join`, `evidence`, `book` and `make` write nothing before the end of their input. What the lines before a fault
/// gave comes before its line.
pub fn run<R: Threads + Sync, S: Source, K: Sink, G: Gate>(
    rt: &R,
    alloc: Global,
    words: &[String],
    source: &mut S,
    sink: &mut K,
    gate: &G,
) -> Status
    // The words are a plan, and this was a run of its command over the lines of the source: of whole inputs exactly
    // what they ask for was written, for `join` the answers that the facts of each group determine. Or they are no
    // plan, and were refused; or there was no memory for them, and nothing was begun. `runs_of_words` says it status by
    // status.
    ensures run { KeepsWords (spoken words.now) S.Source K.Sink source.old source.new sink.old sink.new result }
    ensures bounded { TakesAtMost (S.left source.old) (S.left source.new) MOST_TAKEN }
    ensures told { SeenBefore (S.left source.old) (S.left source.new) × SeenBefore (K.written sink.old) (K.written sink.new) }

    // Where all receptions of a group heard one call, truly phased and wrong in one sense alone: `join` reports this
    // call, or names a place of it no copy of which came intact, and reports the call where each of its places came
    // intact at some receiver; and `watch`, however it ends, reports no other call.
    ensures sent { (n : ℕ) → IsPlan (spoken words.now) (joins n)
        → Runs sent_join S.Source K.Sink source.old source.new sink.old sink.new result }
    ensures told_sent { (n : ℕ) → IsPlan (spoken words.now) (watches n)
        → Runs sent_meaning S.Source K.Sink source.old source.new sink.old sink.new result }

    // At a start at which a call was received, in each character wrong in one sense alone, `capture` reports this call,
    // or names a place of it that showed nothing.
    ensures starts { IsPlan (spoken words.now) captures
        → Runs heard_meaning S.Source K.Sink source.old source.new sink.old sink.new result }

    // The histories of the lines of `replay` and `exchange` are legal, so that the laws of stations and of exchanges
    // hold of them.
    ensures legal_replay { (n : ℕ) → IsPlan (spoken words.now) (replays n)
        → Runs legal_replay S.Source K.Sink source.old source.new sink.old sink.new result }
    ensures legal_exchange { IsPlan (spoken words.now) exchanges
        → Runs legal_exchange S.Source K.Sink source.old source.new sink.old sink.new result }

    // `make` writes exactly the summary of the answers that the generated groups determine, and reads nothing.
    ensures made { (n : ℕ) → IsPlan (spoken words.now) (makes n) → IsFinished result
        → WritesSummary n (K.written sink.old) (K.written sink.new) (K.flushed sink.new) result }
    ensures unread_made { (n : ℕ) → IsPlan (spoken words.now) (makes n)
        → (source.new ≡ source.old) × (IsFinished result ⊎ (result ≡ 5) ⊎ (result ≡ 6)) }

    // What was written of a run that was broken off is a front of the output that the whole input asks for.
    ensures front { (plan : Planned) → IsPlan (spoken words.now) plan → HasOneOutput plan → IsBrokenOff result
        → WritesFrontOfOutput (meaning_of plan) (input_of plan (S.left source.old)) (input_of plan (S.left source.new))
        (K.written sink.old) (K.written sink.new) }
{
    match plan_of(alloc, words) {
        Ok(plan) => {
            one_plan();
            ends_are_kept();
            alike_facts_have_one_answer();
            sent_call_is_answered();
            intact_copies_report_the_call();
            heard_calls_show_no_other();
            told_calls();
            inputs_have_one_output();
            start_reports_the_call();
            traffic_replay::histories_are_legal();
            station_exchange::histories_are_legal();
            execute(rt, alloc, plan, source, sink, gate)
        }
        Err(PlanError::Refused) => refuse(sink),
        Err(PlanError::Memory) => Status::new(6),
    }
}
