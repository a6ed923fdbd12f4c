//! The lines of files of calls.
ghost use Rattle.input_lines.specs.CallLine.{IsCallLine};
ghost use Rattle.input_lines.specs.ReceiverLine.{IsNothing};
ghost use Rattle.input_lines.specs.Readings.{Reads};

use crate::worlds::says_nothing;
use call_texts::read_call;
use call_values::Call;
use expansion::Expansion;
use line_grammar::Column;

/// What a line of a file of calls says.
#[derive(Clone, Copy, Debug, PartialEq, Eq)]
pub enum CallLine {
    /// The line is empty or a comment.
    Nothing,
    /// A call, and the expansion after it, if one is there.
    Call {
        call: Call,
        expansion: Option<Expansion>,
    },
}

/// Reads a line that says something.
fn whole_call(line: &[u8]) -> Result<CallLine, Column>
    requires { IsNothing line.now → ⊥ }
    ensures { Reads IsCallLine line.now result }
{
    let (call, expansion) = read_call(line)?;
    Ok(CallLine::Call { call, expansion })
}

/// Reads one line of a file of calls. An error is the column of bytes that are no such line.
pub fn call_line(line: &[u8]) -> Result<CallLine, Column>
    ensures { Reads IsCallLine line.now result }
{
    if says_nothing(line) {
        return Ok(CallLine::Nothing);
    }
    whole_call(line)
}
