//! What a run of words says, status by status. The function here does nothing, and its contract is a theorem.
ghost use Rattle.std.specs.Prelude.{◌≡◌, ◌⊎◌, ◌≤◌, ◌≢◌};
ghost use Rattle.byte_streams.specs.Streams.{Rises};
ghost use Rattle.line_engine.specs.Endings.{IsFinished, IsOfFault, IsBrokenOff, Writes, TellsWhole, TellsFault, TellsSoFar};
ghost use Rattle.command_line.specs.Words.{IsPlan};
ghost use Rattle.command_line.specs.declared.plans.Plan.{Plan as Planned};
ghost use Rattle.dsc_cmd.specs.Plans.{meaning_of, input_of, words_refused, IsQuietPlan, IsUnplanned, CutsOffWords, CutsOffPlan, TellsPlanFront};
ghost use Rattle.dsc_cmd.specs.Promises.{spoken, KeepsWords, Runs};
ghost use Rattle.dsc_cmd.specs.Sent.{ReportsSent, sent_join};

use byte_streams::{Sink, Source, Status};
use command_line::one_plan;

/// The law that a run of words, as `run` promises it, says this by its status: which words give it, what was read and
/// written, and whether a stream failed. `from` and `rest` are the source before the run and after it, `before` and
/// `after` the sink.
pub fn runs_of_words<S: Source, K: Sink>(
    words: &[String],
    from: &S,
    rest: &S,
    before: &K,
    after: &K,
    status: Status,
)
    requires { KeepsWords (spoken words.now) S.Source K.Sink from.now rest.now before.now after.now status }

    // Exactly what the lines of the whole input ask for, and its status.
    ensures answered { (plan : Planned) → IsPlan (spoken words.now) plan → IsFinished status
        → TellsWhole (meaning_of plan) (input_of plan (S.left from.now)) (input_of plan (S.left rest.now))
        (K.written before.now) (K.written after.now) (K.flushed after.now) status }
    // Where all receptions of a group heard one call, `join` reports this call, or names a lost place of it.
    ensures reported { Runs sent_join S.Source K.Sink from.now rest.now before.now after.now status → IsFinished status
        → ReportsSent (S.left from.now) (S.left rest.now) (K.written before.now) (K.written after.now) (K.flushed after.now) status }

    // The cause of each status, and what it leaves.
    ensures planned { IsFinished status ⊎ IsOfFault status ⊎ (status ≡ 4)
        → (plan : Planned) × IsPlan (spoken words.now) plan }
    ensures unplanned { status ≡ 2 → IsUnplanned (spoken words.now) }
    ensures words { status ≡ 2 → Writes (K.written before.now) (K.written after.now) (K.flushed after.now) words_refused }
    ensures unread { status ≡ 2 → rest.now ≡ from.now }
    ensures faulty { (plan : Planned) → IsPlan (spoken words.now) plan → IsOfFault status
        → TellsFault (meaning_of plan) (input_of plan (S.left from.now)) (input_of plan (S.left rest.now))
        (K.written before.now) (K.written after.now) (K.flushed after.now) status }
    ensures stopped { (plan : Planned) → IsPlan (spoken words.now) plan → status ≡ 4
        → TellsSoFar (meaning_of plan) (input_of plan (S.left from.now)) (input_of plan (S.left rest.now))
        (K.written before.now) (K.written after.now) }
    ensures read_fault { status ≡ 4 → Rises (S.faults from.now) (S.faults rest.now) }
    ensures write_fault { status ≡ 5 → Rises (K.faults before.now) (K.faults after.now) }
    ensures cut { status ≡ 5 → CutsOffWords (spoken words.now) (K.written before.now) (K.written after.now)
        ⊎ CutsOffPlan (spoken words.now) (S.left from.now) (S.left rest.now) (K.written before.now)
        (K.written after.now) }
    ensures memory { status ≡ 6 → (after.now ≡ before.now)
        ⊎ TellsPlanFront (spoken words.now) (S.left from.now) (S.left rest.now) (K.written before.now)
        (K.written after.now) }
    ensures unwritten { (plan : Planned) → IsPlan (spoken words.now) plan → IsQuietPlan plan
        → (status ≡ 4) ⊎ (status ≡ 6) → after.now ≡ before.now }
    ensures unflushed { IsBrokenOff status → K.flushed after.now ≡ K.flushed before.now }
    ensures read_sound { status ≢ 4 → S.faults rest.now ≡ S.faults from.now }
    ensures write_sound { status ≢ 5 → K.faults after.now ≡ K.faults before.now }

    // Without a fault of the streams there is no other ending than these.
    ensures range { status ≤ 7 }
    ensures refuses_words { IsUnplanned (spoken words.now)
        → (Rises (K.faults before.now) (K.faults after.now) → ⊥) → (status ≡ 2) ⊎ (status ≡ 6) }
    ensures completes { (plan : Planned) → IsPlan (spoken words.now) plan
        → (Rises (S.faults from.now) (S.faults rest.now) → ⊥)
        → (Rises (K.faults before.now) (K.faults after.now) → ⊥) → IsFinished status ⊎ IsOfFault status ⊎ (status ≡ 6) }
{
    one_plan();
}
