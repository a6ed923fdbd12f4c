//! Laws: each function here does nothing, and its contract is a theorem over definitions.
ghost use Rattle.std.specs.Prelude.{Bool};
ghost use Rattle.line_engine.specs.Determined.{IsDetermined, HasOutputs};
ghost use Rattle.encode_calls.specs.Encoding.{encode_meaning};

use input_lines::one_call_line;

/// The law that lines of calls determine what `encode` writes. It does nothing.
pub fn lines_determine_output()
    ensures { (long : Bool) → IsDetermined (encode_meaning long) }
{
    one_call_line();
}

/// The law that each input of `encode` has an output. It does nothing.
pub fn inputs_have_outputs()
    ensures { (long : Bool) → HasOutputs (encode_meaning long) }
{}
