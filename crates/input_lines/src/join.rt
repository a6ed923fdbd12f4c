//! The lines of join's input.
ghost use Rattle.input_lines.specs.Lines.{ReadsJoin};

use crate::evidence::evidence_line;
use crate::fault::LineFault;
use crate::receptions::reception_line;
use slot_evidence::{Reception, Sheet};
use std::alloc::Global;

/// What a line of join's input says.
#[derive(Debug, Drop)]
pub enum JoinLine {
    /// The line is empty or a comment.
    Nothing,
    /// A receiver of this group heard these elements.
    Reception { group: u32, elements: Reception },
    /// Receivers of this group showed what this sheet keeps.
    Evidence { group: u32, sheet: Sheet },
}

/// Reads one line of join's input. An error is the column of bytes that are no such line, or want of memory.
pub fn join_line(alloc: Global, line: &[u8]) -> Result<JoinLine, LineFault>
    ensures { ReadsJoin line.now result }
{
    let Some((first, rest)) = line.split_first() else {
        return Ok(JoinLine::Nothing);
    };
    match *first {
        b'#' => Ok(JoinLine::Nothing),
        b'r' => reception_line(alloc, line, rest),
        b'e' => evidence_line(line, rest),
        _ => Err(LineFault::Column(1)),
    }
}
