//! Laws: each function here does nothing, and its contract is a theorem over definitions.
ghost use Rattle.std.specs.Prelude.{◌≡◌, ◌<◌, ◌^◌, ◌⊎◌, ℕ, List, Result, Ok, Err};
ghost use Rattle.call_values.specs.declared.calls.Call.{Call};
ghost use Rattle.call_values.specs.Calls.{IsCall};
ghost use Rattle.slot_evidence.specs.declared.places.Seen.{Seen};
ghost use Rattle.slot_evidence.specs.Sheet.{IsSheet};
ghost use Rattle.slot_join.specs.declared.joined.Extra.{Extra};
ghost use Rattle.call_texts.specs.Texts.{IsWholeOrAbsent, reported_text};
ghost use Rattle.input_lines.specs.Evidence.{evidence_text};
ghost use Rattle.input_lines.specs.declared.fault.LineFault.{LineFault};
ghost use Rattle.input_lines.specs.declared.fault.LineFault.TheVariants.{NoMemory};
ghost use Rattle.dsc_files.specs.declared.lines.Line.{Line};
ghost use Rattle.dsc_files.specs.declared.lines.Line.TheVariants as line;
ghost use Rattle.dsc_files.specs.declared.lines.FileKind.TheVariants as kind;
ghost use Rattle.dsc_files.specs.Files.{ReadsLine};

use input_lines::{evidence_is_read, one_call_line};

/// The law on the text that `put_call` writes of a call and of the expansion after it: reading a line of calls can
/// answer nothing but this call and this expansion.
#[tactic(auto, using(crate::proofs::Written::call_is_read))]
pub fn written_calls_are_read()
    ensures { (call : Call) (extra : Extra) (answer : Result Line LineFault) → IsCall call → IsWholeOrAbsent extra
        → ReadsLine kind.Call (reported_text call extra) answer → answer ≡ Ok (line.Call call extra) }
{
    one_call_line();
}

/// The law that of the text of evidence reading a line of join's input can answer nothing but its group and its sheet,
/// or want of memory.
#[tactic(auto, using(crate::proofs::Written::evidence_line))]
pub fn evidence_lines_are_read()
    ensures { (group : ℕ) (sheet : List Seen) (answer : Result Line LineFault) → group < 2 ^ 32 → IsSheet sheet
        → ReadsLine kind.Join (evidence_text group sheet) answer
        → (answer ≡ Ok (line.Evidence group sheet)) ⊎ (answer ≡ Err NoMemory) }
{
    evidence_is_read();
}
