//! Laws: each function here does nothing, and its contract is a theorem over definitions.
ghost use Rattle.std.specs.Prelude.{◌≡◌, ℕ, ◌<◌, ◌^◌, ◌↔◌, ◌++◌, ◌∷◌, List, Contains};
ghost use Rattle.slot_evidence.specs.declared.places.Seen.{Seen};
ghost use Rattle.slot_evidence.specs.Sheet.{IsSheet, IsEnds};
ghost use Rattle.line_engine.specs.Determined.{IsDetermined, LacksNoOutput};
ghost use Rattle.input_lines.specs.ReceiverLine.{ReceiverLine, IsLine, evidence};
ghost use Rattle.input_lines.specs.Evidence.{pairs_below, evidence_text};
ghost use Rattle.line_engine.specs.Lines.{Lines};
ghost use Rattle.join_groups.specs.Groups.{AreLines, group_facts};
ghost use Rattle.join_groups.specs.Output.{TellsAnswer, TellsEvidence, IsJoinText, IsEvidenceText};
ghost use Rattle.join_groups.specs.Meanings.{EndsTelling, groups_meaning};
ghost use Rattle.join_groups.specs.Laws.{AreOfGroup, HaveAlikeFacts};

use crate::groups::{MOST_GROUPS, MOST_IN_BATCH};
use input_lines::{evidence_is_read, one_line};
use slot_evidence::{ends_are_kept, one_sheet};
use slot_join::{alike_facts_have_one_answer, no_answer_is_lacking, one_answer};

/// The law that these are the limits of groups.
pub fn limits()
    ensures groups { MOST_GROUPS ≡ 1024 }
    ensures batch { MOST_IN_BATCH ≡ 256 }
{}

/// The law that lines of receptions and evidence determine what `join` and `evidence` write.
pub fn lines_determine_output()
    ensures join { IsDetermined (groups_meaning TellsAnswer) }
    ensures evidence { IsDetermined (groups_meaning TellsEvidence) }
{
    one_line();
    one_answer();
    one_sheet();
}

/// The law that texts depend on the set of lines alone, not on their order nor on how often one is there.
pub fn texts_forget_order()
    ensures join { (said other : List ReceiverLine) (text : List ℕ) (status : ℕ)
        → ((line : ReceiverLine) → Contains said line ↔ Contains other line)
        → IsJoinText said text status → IsJoinText other text status }
    ensures evidence { (said other : List ReceiverLine) (text : List ℕ) (status : ℕ)
        → ((line : ReceiverLine) → Contains said line ↔ Contains other line)
        → IsEvidenceText said text status → IsEvidenceText other text status }
{
    alike_facts_have_one_answer();
    ends_are_kept();
    evidence_is_read();
}

/// The law that the line of evidence which is written for all lines of a group stands for them: whatever other lines
/// there are, the texts are the same with it in their place. So evidence of evidence is itself.
pub fn evidence_stands_for_lines()
    ensures line { (k : ℕ) (sheet : List Seen) → k < 2 ^ 32 → IsSheet sheet
        → IsLine (evidence k (pairs_below 64 sheet)) (evidence_text k sheet) }
    ensures join { (heard rest : List ReceiverLine) (k : ℕ) (sheet : List Seen) (text : List ℕ) (status : ℕ) → IsSheet sheet
        → AreOfGroup k heard → IsEnds (group_facts heard k) sheet
        → (IsJoinText (heard ++ rest) text status ↔ IsJoinText (evidence k (pairs_below 64 sheet) ∷ rest) text status) }
    ensures evidence { (heard rest : List ReceiverLine) (k : ℕ) (sheet : List Seen) (text : List ℕ) (status : ℕ)
        → IsSheet sheet → AreOfGroup k heard → IsEnds (group_facts heard k) sheet
        → (IsEvidenceText (heard ++ rest) text status
        ↔ IsEvidenceText (evidence k (pairs_below 64 sheet) ∷ rest) text status) }
{
    alike_facts_have_one_answer();
    ends_are_kept();
    evidence_is_read();
}

/// The law that facts determine texts: lines that name the same groups, each with alike facts, have one text and
/// status, whatever else they say.
pub fn facts_determine_texts()
    ensures join { (said other : List ReceiverLine) (text : List ℕ) (status : ℕ) → HaveAlikeFacts said other
        → IsJoinText said text status → IsJoinText other text status }
    ensures evidence { (said other : List ReceiverLine) (text : List ℕ) (status : ℕ) → HaveAlikeFacts said other
        → IsEvidenceText said text status → IsEvidenceText other text status }
    ensures join_ends { (first second : Lines) (said other : List ReceiverLine) → AreLines said first → AreLines other second
        → HaveAlikeFacts said other → (a b : List ℕ) (s t : ℕ) → EndsTelling TellsAnswer first a s
        → EndsTelling TellsAnswer second b t → (a ≡ b) × (s ≡ t) }
    ensures evidence_ends { (first second : Lines) (said other : List ReceiverLine) → AreLines said first → AreLines other second
        → HaveAlikeFacts said other → (a b : List ℕ) (s t : ℕ) → EndsTelling TellsEvidence first a s
        → EndsTelling TellsEvidence second b t → (a ≡ b) × (s ≡ t) }
{
    one_line();
    one_answer();
    one_sheet();
    alike_facts_have_one_answer();
    ends_are_kept();
    evidence_is_read();
}

/// The law that no input of `join` and of `evidence` lacks an output.
pub fn no_output_is_lacking()
    ensures join { LacksNoOutput (groups_meaning TellsAnswer) }
    ensures evidence { LacksNoOutput (groups_meaning TellsEvidence) }
{
    no_answer_is_lacking();
}
