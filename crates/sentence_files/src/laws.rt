//! Laws: each function here does nothing, and its contract is a theorem over definitions.
ghost use Rattle.line_engine.specs.Determined.{IsDetermined, HasOutputs};
ghost use Rattle.sentence_files.specs.Telling.{sentences_meaning};

use input_lines::one_sentence_line;

/// The law that lines of calls and sentences determine what `sentences` writes. It does nothing.
pub fn lines_determine_output()
    ensures { IsDetermined sentences_meaning }
{
    one_sentence_line();
}

/// The law that each input of `sentences` has an output. It does nothing.
pub fn inputs_have_outputs()
    ensures { HasOutputs sentences_meaning }
{}
