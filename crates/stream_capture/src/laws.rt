//! Laws: each function here does nothing, and its contract is a theorem over definitions.
ghost use Rattle.std.specs.Prelude.{◌≡◌, ℕ, List};
ghost use Rattle.line_engine.specs.Lines.{Lines};
ghost use Rattle.line_engine.specs.Determined.{IsDetermined, LacksNoOutput};
ghost use Rattle.ten_unit.specs.declared.character.Element.{Element};
ghost use Rattle.stream_capture.specs.Telling.{AreStreamLines, stream_of, EndsStarts, capture_meaning};

use input_lines::one_stream_line;
use long_capture::decided_starts_stay;
use slot_join::{no_answer_is_lacking, one_answer};

/// The law that lines of a stream determine what `capture` writes.
pub fn lines_determine_output()
    ensures { IsDetermined capture_meaning }
{
    one_stream_line();
    one_answer();
    decided_starts_stay();
}

/// The law that the stream alone determines the text and the status, however it is cut into lines.
pub fn streams_determine_output()
    ensures { (a b : Lines) (x y : List (List Element)) → AreStreamLines x a → AreStreamLines y b
        → stream_of x ≡ stream_of y
        → (text other : List ℕ) (s t : ℕ) → EndsStarts a text s → EndsStarts b other t → (text ≡ other) × (s ≡ t) }
{
    one_stream_line();
    one_answer();
}

/// The law that no input of `capture` lacks an output.
pub fn no_output_is_lacking()
    ensures { LacksNoOutput capture_meaning }
{
    no_answer_is_lacking();
}
