//! The lines of logs of sentences.
ghost use Rattle.input_lines.specs.BookLine.{IsBookLine};
ghost use Rattle.input_lines.specs.Readings.{Reads};

use line_grammar::Column;

/// What a line of a log of sentences says.
#[derive(Clone, Copy, Debug, PartialEq, Eq)]
pub enum BookLine {
    /// The line is empty or a comment.
    Nothing,
    /// A sentence, which is the line itself: it begins with `$`.
    Sentence,
}

/// Reads one line of a log of sentences. An error is the column of bytes that are no such line.
pub fn book_line(line: &[u8]) -> Result<BookLine, Column>
    ensures { Reads IsBookLine line.now result }
{
    let Some((first, _)) = line.split_first() else {
        return Ok(BookLine::Nothing);
    };
    match *first {
        b'#' => Ok(BookLine::Nothing),
        b'$' => Ok(BookLine::Sentence),
        _ => Err(1),
    }
}
