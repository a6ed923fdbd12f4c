//! Laws: each function here does nothing, and its contract is a theorem over definitions.
ghost use Rattle.std.specs.Prelude.{◌≡◌, ℕ, ◌<◌, ◌^◌, Bool, Option, IfSome, List};
ghost use Rattle.call_values.specs.Calls.{IsCall};
ghost use Rattle.call_values.specs.declared.calls.Call.{Call};
ghost use Rattle.dsc_cmd.specs.Encoded.{IsHeardWhole, IsOfEncoded, TellsCall};
ghost use Rattle.dsc_cmd.specs.Plans.{meaning_of, HasOneOutput, HasSomeOutput};
ghost use Rattle.input_lines.specs.ReceiverLine.{ReceiverLine};
ghost use Rattle.command_line.specs.Words.{IsInRange};
ghost use Rattle.command_line.specs.declared.plans.Plan.{Plan};
ghost use Rattle.command_line.specs.declared.plans.Plan.TheVariants.{Join, Evidence};
ghost use Rattle.expansion.specs.Expansions.{IsExpansion};
ghost use Rattle.expansion.specs.declared.values.Sets.{Sets};
ghost use Rattle.join_groups.specs.Groups.{AreLines};
ghost use Rattle.join_groups.specs.Laws.{HaveAlikeFacts};
ghost use Rattle.join_groups.specs.Output.{IsJoinText};
ghost use Rattle.line_engine.specs.Determined.{IsDetermined, HasOutputs, LacksNoOutput};
ghost use Rattle.line_engine.specs.Faults.{IsFirstFault};
ghost use Rattle.line_engine.specs.Lines.{Lines};
ghost use Rattle.line_engine.specs.Output.{IsWhole, IsOutput};
ghost use Rattle.line_engine.specs.declared.faults.Fault.{Fault};

use generated_join::{made_text_is_one, made_text_is_there};
use join_groups::facts_determine_texts;
use slot_join::{alike_facts_have_one_answer, transmissions_are_answered};

/// The law that `join` gives back what `encode` wrote. The line that `encode` writes of a call is a line of join's
/// input. Where all lines of a group are this line, join's text reports exactly this call and this expansion, whatever
/// other groups there are.
pub fn encoded_calls_are_reported()
    ensures line { (long : Bool) (k : ℕ) (call : Call) (expansion : Option Sets) → k < 2 ^ 32
        → IsHeardWhole long k call expansion }
    ensures reported { (said : List ReceiverLine) (k : ℕ) (long : Bool) (call : Call) (expansion : Option Sets)
        → IsCall call → IfSome expansion IsExpansion → IsOfEncoded said k long call expansion
        → (text : List ℕ) (status : ℕ) (joined : IsJoinText said text status) → TellsCall joined.all k call expansion }
{
    alike_facts_have_one_answer();
    transmissions_are_answered();
}

/// The law that each command's input has one first fault. The input of each command but `watch` has one output: its
/// lines ask for one text and status.
pub fn inputs_have_one_output()
    ensures determined { (plan : Plan) → HasOneOutput plan → IsDetermined (meaning_of plan) }
    ensures output { (plan : Plan) → HasOneOutput plan → (lines : Lines) (a b : List ℕ) (s t : ℕ)
        → IsOutput (meaning_of plan) lines a s → IsOutput (meaning_of plan) lines b t → (a ≡ b) × (s ≡ t) }
    ensures fault { (plan : Plan) (lines : Lines) (m n : ℕ) (a b : Fault) → IsFirstFault (meaning_of plan) lines m a
        → IsFirstFault (meaning_of plan) lines n b → (m ≡ n) × (a ≡ b) }
{
    join_groups::lines_determine_output();
    encode_calls::lines_determine_output();
    sentence_files::lines_determine_output();
    traffic_replay::lines_determine_output();
    stream_capture::lines_determine_output();
    station_exchange::lines_determine_output();
    sentence_files::logs_determine_output();
    made_text_is_one();
}

/// The law that facts determine what `join` and `evidence` write, whatever the number of workers: two inputs without a
/// fault whose lines name the same groups, each with alike facts, have one text and status.
pub fn facts_determine_outputs()
    ensures join { (m n : ℕ) (first second : Lines) (said other : List ReceiverLine) → AreLines said first
        → AreLines other second → HaveAlikeFacts said other → (a b : List ℕ) (s t : ℕ)
        → IsWhole (meaning_of (Join m)) first a s → IsWhole (meaning_of (Join n)) second b t → (a ≡ b) × (s ≡ t) }
    ensures evidence { (m n : ℕ) (first second : Lines) (said other : List ReceiverLine) → AreLines said first
        → AreLines other second → HaveAlikeFacts said other → (a b : List ℕ) (s t : ℕ)
        → IsWhole (meaning_of (Evidence m)) first a s → IsWhole (meaning_of (Evidence n)) second b t
        → (a ≡ b) × (s ≡ t) }
{
    facts_determine_texts();
}

/// The law that each input of `encode`, `sentences` and `exchange` has an output. By `inputs_have_one_output` it has
/// exactly one.
pub fn inputs_have_an_output()
    ensures { (plan : Plan) → HasSomeOutput plan → HasOutputs (meaning_of plan) }
{
    encode_calls::inputs_have_outputs();
    sentence_files::inputs_have_outputs();
    station_exchange::inputs_have_outputs();
}

/// The law that no input of a command but `watch` lacks an output: what `run` promises of whole inputs is never empty.
pub fn no_output_is_lacking()
    ensures { (plan : Plan) → HasOneOutput plan → IsInRange plan → LacksNoOutput (meaning_of plan) }
{
    inputs_have_an_output();
    join_groups::no_output_is_lacking();
    traffic_replay::no_output_is_lacking();
    stream_capture::no_output_is_lacking();
    sentence_files::no_output_is_lacking();
    made_text_is_there();
}
