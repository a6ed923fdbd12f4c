//! Reading a line of a file of any kind.
ghost use Rattle.dsc_files.specs.Files.{ReadsLine, ReadsStream};

use crate::lines::{FileKind, Line};
use crate::points::point_line;
use crate::worlds::world_line;
use input_lines::{LineFault, book_line, call_line, join_line, sentence_line, stream_line};
use slot_evidence::Reception;
use std::alloc::Global;

/// Reads one line of a stream, with its elements in a list.
fn added_line(alloc: Global, bytes: &[u8]) -> Result<Line, LineFault>
    ensures { ReadsStream bytes.now result }
{
    let signs = stream_line(bytes)?;
    if signs.is_empty() {
        return Ok(Line::Nothing);
    }
    Ok(Line::Stream(Reception::of_signs(alloc, signs)?.unwrap()))
}

/// Reads one line of a file of this kind, without its end. An error is the column of a line that is ill-formed, or want
/// of memory.
pub fn line_of(alloc: Global, kind: FileKind, bytes: &[u8]) -> Result<Line, LineFault>
    ensures { ReadsLine kind bytes.now result }
{
    match kind {
        FileKind::Join => Ok(Line::from(join_line(alloc, bytes)?)),
        FileKind::Call => Ok(Line::from(call_line(bytes)?)),
        FileKind::Sentence => match sentence_line(bytes) {
            Ok(says) => Ok(Line::from(&says)),
            Err(n) => Err(LineFault::Column(n)),
        },
        FileKind::Traffic(point) => Ok(Line::from(point_line(alloc, point, bytes)?)),
        FileKind::Stream => added_line(alloc, bytes),
        FileKind::Book => Ok(Line::from(book_line(bytes)?)),
        FileKind::Exchange(point) => match world_line(point, bytes) {
            Ok(None) => Ok(Line::Nothing),
            Ok(Some(says)) => Ok(Line::from(says)),
            Err(n) => Err(LineFault::Column(n)),
        },
    }
}
