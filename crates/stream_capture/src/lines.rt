//! The line of a start.
ghost use Rattle.std.specs.Prelude.{◌≡◌, ◌++◌, IfOk};
ghost use Rattle.slot_join.specs.Answer.{is_reported, IsAnswer};
ghost use Rattle.slot_evidence.specs.Facts.{Facts};
ghost use Rattle.slot_evidence.specs.Sheet.{IsEnds};
ghost use Rattle.slot_join.specs.declared.joined.Joined.{Joined};
ghost use Rattle.stream_capture.specs.Telling.{start_line};

use arrayvec::ArrayVec;
use call_texts::append_answer_line;
use itoa::Buffer;
use slot_evidence::Sheet;
use slot_join::{is_reported, report};
use std::alloc::AllocError;

/// Appends the line of the start with this number, at this origin and with this sheet, and answers whether a call was
/// reported.
pub(crate) fn append_start(
    out: &mut Vec<u8>,
    number: u32,
    origin: i64,
    sheet: &Sheet,
) -> Result<bool, AllocError>
    ensures { IfOk result (λ is_well. (answer : Joined) × (((F : Facts) → IsEnds F sheet.now → IsAnswer F answer)
        × ((out.new.items ≡ out.old.items ++ start_line number origin answer) × (is_well ≡ is_reported answer)))) }
{
    let answer = report(sheet);
    let mut buffer = Buffer::new();
    out.extend_from_slice(b"at ")?;
    out.extend_from_slice(buffer.format(origin).as_bytes())?;
    out.extend_from_slice(b" ")?;
    let mut line: ArrayVec<u8, 183> = ArrayVec::new();
    append_answer_line(&mut line, number, &answer);
    out.extend_from_slice(&line)?;
    Ok(is_reported(&answer))
}
