//! The lines of files of exchanges.
ghost use Rattle.std.specs.Prelude.{IsTrue, ◌↔◌};
ghost use Rattle.input_lines.specs.ReceiverLine.{IsNothing};

/// Whether a line of any file says nothing: it is empty or a comment.
pub fn says_nothing(line: &[u8]) -> bool
    ensures { IsTrue result ↔ IsNothing line.now }
{
    let Some((first, _)) = line.split_first() else {
        return true;
    };
    *first == b'#'
}
