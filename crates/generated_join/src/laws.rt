//! Laws: each function here does nothing, and its contract is a theorem over definitions.
ghost use Rattle.std.specs.Prelude.{◌≡◌, ℕ, ◌≤◌, ◌^◌, List, if◌then◌else◌};
ghost use Rattle.std.specs.List.{list_all};
ghost use Rattle.input_lines.specs.ReceiverLine.{ReceiverLine};
ghost use Rattle.join_groups.specs.Groups.{AreLines};
ghost use Rattle.join_groups.specs.Output.{IsJoinText};
ghost use Rattle.slot_join.specs.Answer.{is_reported};
ghost use Rattle.generated_join.specs.declared.summary.Summary.{Summary as Numbers};
ghost use Rattle.generated_join.specs.Generator.{generated, generated_texts};
ghost use Rattle.generated_join.specs.Summary.{IsSummary, IsMade};

use slot_join::{no_answer_is_lacking, one_answer};

/// The law that the generated lines are lines of join's input, each of these bytes.
pub fn generated_lines_are_read()
    ensures { (n : ℕ) → n ≤ 2 ^ 32 → AreLines (generated n) (generated_texts n) }
{}

/// The law that `join` over lines of which this is the summary ends with status 0 where all groups were reported, and
/// else with 1.
pub fn joins_end_so()
    ensures { (said : List ReceiverLine) (summary : Numbers) (is : IsSummary said summary)
        → (text : List ℕ) × IsJoinText said text (if list_all (λ one. is_reported one.answer) is.all then 0 else 1) }
{}

/// The law that `make n` has one text and status.
pub fn made_text_is_one()
    ensures { (n : ℕ) (a b : List ℕ) (s t : ℕ) → IsMade n a s → IsMade n b t → (a ≡ b) × (s ≡ t) }
{
    one_answer();
}

/// The law that `make n` doesn't lack a text and a status.
pub fn made_text_is_there()
    ensures { (n : ℕ) → n ≤ 2 ^ 32 → ((text : List ℕ) (status : ℕ) → IsMade n text status → ⊥) → ⊥ }
{
    generated_lines_are_read();
    no_answer_is_lacking();
}
