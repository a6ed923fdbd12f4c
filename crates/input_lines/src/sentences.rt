//! The lines of files of calls and sentences.
ghost use Rattle.std.specs.Prelude.{◌≢◌, ◌∷◌, ℕ, List};
ghost use Rattle.line_grammar.specs.Bytes.{dollar_sign};
ghost use Rattle.input_lines.specs.Readings.{Reads};
ghost use Rattle.input_lines.specs.SentenceLine.{IsSentenceLine};

use crate::calls::{CallLine, call_line};
use line_grammar::Column;

/// What a line of a file of calls and sentences says.
#[derive(Clone, Copy, Debug, PartialEq, Eq)]
pub enum SentenceLine<'a> {
    /// What a line of calls says.
    Said(CallLine),
    /// A sentence, which is the line itself: it begins with `$`.
    Sentence(&'a [u8]),
}

/// Reads a line that doesn't begin with `$`.
fn said_line(line: &[u8]) -> Result<SentenceLine<'_>, Column>
    requires { (rest : List ℕ) → line.now ≢ dollar_sign ∷ rest }
    ensures { Reads IsSentenceLine line.now result }
{
    Ok(SentenceLine::Said(call_line(line)?))
}

/// Reads one line of a file of calls and sentences. An error is the column of bytes that are no such line.
pub fn sentence_line(line: &[u8]) -> Result<SentenceLine<'_>, Column>
    ensures { Reads IsSentenceLine line.now result }
{
    let Some((first, _)) = line.split_first() else {
        return Ok(SentenceLine::Said(CallLine::Nothing));
    };
    match *first {
        b'$' => Ok(SentenceLine::Sentence(line)),
        _ => said_line(line),
    }
}
