//! Laws: each function here does nothing, and its contract is a theorem over definitions.
ghost use Rattle.std.specs.Prelude.{◌≡◌, ◌≤◌, ◌<◌, ◌^◌, ◌⊎◌, ℕ, List, Option, Result, Ok, Err};
ghost use Rattle.slot_evidence.specs.declared.places.Seen.{Seen};
ghost use Rattle.slot_evidence.specs.Sheet.{IsSheet, IsEnds, facts_in};
ghost use Rattle.input_lines.specs.declared.join.JoinLine.{JoinLine as Got};
ghost use Rattle.input_lines.specs.declared.join.JoinLine.TheVariants.{Evidence};
ghost use Rattle.input_lines.specs.declared.fault.LineFault.{LineFault};
ghost use Rattle.input_lines.specs.declared.fault.LineFault.TheVariants.{NoMemory};
ghost use Rattle.input_lines.specs.Evidence.{pairs_below, evidence_text};
ghost use Rattle.input_lines.specs.ReceiverLine.{ReceiverLine, evidence, IsLine, IsNothing};
ghost use Rattle.input_lines.specs.Lines.{ReadsJoin, facts_of_pairs};
ghost use Rattle.input_lines.specs.declared.calls.CallLine.{CallLine};
ghost use Rattle.input_lines.specs.declared.sentences.SentenceLine.{SentenceLine};
ghost use Rattle.input_lines.specs.CallLine.{IsCallLine};
ghost use Rattle.input_lines.specs.SentenceLine.{IsSentenceLine, SayTheSame};
ghost use Rattle.input_lines.specs.declared.books.BookLine.{BookLine};
ghost use Rattle.input_lines.specs.BookLine.{IsBookLine};
ghost use Rattle.ten_unit.specs.declared.character.Element.{Element};
ghost use Rattle.input_lines.specs.PointLine.{PointLine, IsPointLine};
ghost use Rattle.traffic_lines.specs.declared.lines.Point.{Point as At};
ghost use Rattle.line_grammar.specs.Columns.{IsColumn};
ghost use Rattle.traffic_lines.specs.declared.worlds.ExchangePoint.{ExchangePoint};
ghost use Rattle.traffic_lines.specs.declared.worlds.WorldLine.{WorldLine};
ghost use Rattle.traffic_lines.specs.Worlds.{IsWorldLine};
ghost use Rattle.input_lines.specs.StreamLine.{IsStreamLine};
ghost use Rattle.input_lines.specs.WorldLine.{IsWorldFileLine};

use call_texts::texts_tell_calls_apart;
use slot_evidence::one_sheet;
use traffic_lines::{one_traffic_line, one_world_line, traffic_lines_begin};

/// The law that a line of join's input says one thing.
#[tactic(auto, using(crate::proofs::WholeLines::one_line))]
pub fn one_line()
    ensures { (a b : ReceiverLine) (text : List ℕ) → IsLine a text → IsLine b text → a ≡ b }
{}

/// The law that a line at a point of a traffic file says one thing.
#[tactic(auto, using(crate::proofs::Choices::one_point))]
pub fn one_point_line()
    ensures { (at : At) (a b : PointLine) (text : List ℕ) → IsPointLine at a text → IsPointLine at b text → a ≡ b }
{
    one_traffic_line();
    traffic_lines_begin();
}

/// The law that a line of a file of calls says one thing.
#[tactic(auto, using(crate::proofs::Choices::one_call))]
pub fn one_call_line()
    ensures { (a b : CallLine) (text : List ℕ) → IsCallLine a text → IsCallLine b text → a ≡ b }
{
    texts_tell_calls_apart();
}

/// The law that a line of a file of calls and sentences says one thing.
#[tactic(auto, using(crate::proofs::Choices::one_sentence))]
pub fn one_sentence_line()
    ensures { (a b : SentenceLine) (text : List ℕ) → IsSentenceLine a text → IsSentenceLine b text → SayTheSame a b }
{
    texts_tell_calls_apart();
}

/// The law that a line of a stream adds one list of elements.
pub fn one_stream_line()
    ensures { (a b : List Element) (text : List ℕ) → IsStreamLine a text → IsStreamLine b text → a ≡ b }
{}

/// The law that a line of a log of sentences says one thing.
#[tactic(auto, using(crate::proofs::Choices::one_book))]
pub fn one_book_line()
    ensures { (a b : BookLine) (text : List ℕ) → IsBookLine a text → IsBookLine b text → a ≡ b }
{}

/// The law that a line at a point of a file of an exchange says one thing.
#[tactic(auto, using(crate::proofs::Choices::one_exchange))]
pub fn one_exchange_line()
    ensures { (point : ExchangePoint) (a b : Option WorldLine) (text : List ℕ) → IsWorldFileLine point a text
        → IsWorldFileLine point b text → a ≡ b }
{
    one_world_line();
}

/// The law that the column of a line that says something is the same whether or not the file has lines that say
/// nothing.
pub fn exchange_columns()
    ensures { (point : ExchangePoint) (text : List ℕ) (n : ℕ) → (IsNothing text → ⊥) → 1 ≤ n
        → IsColumn (IsWorldLine point) text n → IsColumn (IsWorldFileLine point) text n }
{}

/// The law that the text of evidence is a line of join's input, whose facts have the same ends: read, it gives the same
/// group and the same sheet. It does nothing.
#[tactic(auto, using(crate::proofs::SheetTexts::text_is_line, crate::proofs::SheetTexts::facts_same, crate::proofs::SheetTexts::text_has_ends, crate::proofs::SheetTexts::text_is_read))]
pub fn evidence_is_read()
    ensures line { (group : ℕ) (sheet : List Seen) → group < 2 ^ 32 → IsSheet sheet
        → IsLine (evidence group (pairs_below 64 sheet)) (evidence_text group sheet) }
    ensures facts { (sheet : List Seen) (place symbol : ℕ) → IsSheet sheet
        → facts_of_pairs (pairs_below 64 sheet) place symbol ≡ facts_in sheet place symbol }
    ensures ends { (sheet : List Seen) → IsSheet sheet → IsEnds (facts_of_pairs (pairs_below 64 sheet)) sheet }
    ensures read { (group : ℕ) (sheet : List Seen) (answer : Result Got LineFault) → group < 2 ^ 32 → IsSheet sheet
        → ReadsJoin (evidence_text group sheet) answer
        → (answer ≡ Ok (Evidence group sheet)) ⊎ (answer ≡ Err NoMemory) }
{
    one_line();
    one_sheet();
}
