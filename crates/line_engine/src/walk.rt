//! The lines of bytes that were read, given to a command one by one.
ghost use Rattle.std.specs.Prelude.{◌≡◌, ℕ, ◌+◌, ◌-◌, ◌*◌, ◌<◌, ◌≤◌, true, Option, List, [], ◌∷◌, ◌++◌, length, drop, IfOk, IfErr, OnOk};
ghost use Rattle.std.specs.List.{list_all};
ghost use Rattle.line_grammar.specs.Bytes.{line_feed};
ghost use Rattle.line_engine.specs.Lines.{Lines, lines_of, is_inside};
ghost use Rattle.line_engine.specs.inside.Progress.{IsCounted, PassesLimit, TakesLines, StopsAtLine, IsOn, Stops};

use crate::bounds::{LONGEST_LINE, MOST_LINES, MOST_PENDING};
use crate::command::{Command, Refusal};
use crate::faults::{Fault, FirstFault};
use crate::halts::Halt;
use crate::telling::write_pending;
use byte_streams::Sink;
use memchr::memchr;

/// Whether a line after so many lines, which has so many bytes, is within the limits.
fn check_limits(count: usize, len: usize) -> Result<(), Halt>
    requires { count ≤ MOST_LINES }
    ensures within { OnOk result ((count < MOST_LINES) × (len ≤ LONGEST_LINE)) }
    ensures passed { IfErr result (λ halt. PassesLimit count len halt) }
{
    if count >= MOST_LINES {
        return Err(Halt::Fault(FirstFault {
            line: count + 1,
            fault: Fault::TooManyLines,
        }));
    }
    if len > LONGEST_LINE {
        return Err(Halt::Fault(FirstFault {
            line: count + 1,
            fault: Fault::TooLong,
        }));
    }
    Ok(())
}

/// Whether an open line after so many lines is within the limits so far. There is none where no byte is left.
pub(crate) fn check_open(count: usize, left: usize) -> Result<(), Halt>
    requires { count ≤ MOST_LINES }
    ensures within { OnOk result ((0 < left → count < MOST_LINES) × (left ≤ LONGEST_LINE)) }
    ensures passed { IfErr result (λ halt. (0 < left) × PassesLimit count left halt) }
{
    if left == 0 {
        return Ok(());
    }
    check_limits(count, left)
}

/// Gives a line after so many lines to the command.
fn take_line<C: Command>(
    command: &mut C,
    count: usize,
    line: &[u8],
    out: &mut Vec<u8>,
) -> Result<(), Halt>
    requires counted { IsCounted C.stands_for command.old out.old.items count }
    requires few { count ≤ MOST_LINES }
    ensures within { OnOk result ((count < MOST_LINES) × (length line.now ≤ LONGEST_LINE)) }
    ensures taken { OnOk result ((lines : Lines) (text : List ℕ)
        → C.stands_for command.old lines (text ++ out.old.items) → count ≡ length lines
        → TakesLines C.meaning C.stands_for lines (line.now ∷ []) command.new (text ++ out.new.items)) }
    ensures stopped { IfErr result (λ halt. (lines : Lines) (text : List ℕ)
        → C.stands_for command.old lines (text ++ out.old.items) → count ≡ length lines
        → StopsAtLine C.meaning lines line.now out.old.items out.new.items halt) }
{
    check_limits(count, line.len())?;
    match command.take(line, out) {
        Ok(()) => Ok(()),
        Err(Refusal::Column(n)) => Err(Halt::Fault(FirstFault {
            line: count + 1,
            fault: Fault::Column(n),
        })),
        Err(Refusal::TooManyGroups) => Err(Halt::Fault(FirstFault {
            line: count + 1,
            fault: Fault::TooManyGroups,
        })),
        Err(Refusal::Memory) => Err(Halt::Memory),
    }
}

/// Gives the bytes after the last line feed to the command, as the last line, if there are any.
pub(crate) fn take_last<C: Command>(
    command: &mut C,
    count: usize,
    rest: &[u8],
    out: &mut Vec<u8>,
) -> Result<(), Halt>
    requires counted { IsCounted C.stands_for command.old out.old.items count }
    requires few { count ≤ MOST_LINES }
    requires open_end { list_all is_inside rest.now ≡ true }
    ensures taken { OnOk result ((lines : Lines) (text : List ℕ)
        → C.stands_for command.old lines (text ++ out.old.items) → count ≡ length lines
        → TakesLines C.meaning C.stands_for lines (lines_of rest.now) command.new (text ++ out.new.items)) }
    ensures stopped { IfErr result (λ halt. (0 < length rest.now)
        × ((lines : Lines) (text : List ℕ) → C.stands_for command.old lines (text ++ out.old.items)
        → count ≡ length lines
        → StopsAtLine C.meaning lines rest.now out.old.items out.new.items halt)) }
{
    if rest.is_empty() {
        return Ok(());
    }
    take_line(command, count, rest, out)
}

/// Gives a line after so many lines to the command, and writes what is pending where that is much.
fn take_and_write<C: Command, K: Sink>(
    command: &mut C,
    count: usize,
    line: &[u8],
    out: &mut Vec<u8>,
    sink: &mut K,
) -> Result<(), Halt>
    requires counted { IsCounted C.stands_for command.old out.old.items count }
    requires few { count ≤ MOST_LINES }
    ensures within { OnOk result ((count < MOST_LINES) × (length line.now ≤ LONGEST_LINE)) }
    ensures counted { OnOk result (IsCounted C.stands_for command.new out.new.items (count + 1)) }
    ensures on { OnOk result ((start : K) (taken rest : List ℕ) → list_all is_inside line.now ≡ true
        → IsOn C.meaning C.stands_for K.written K.faults start taken (line.now
        ++ (line_feed ∷ rest)) count command.old out.old.items sink.old
        → IsOn C.meaning C.stands_for K.written K.faults start taken rest (count + 1)
        command.new out.new.items sink.new) }
    ensures stopped { IfErr result (λ halt. (start : K) (left : Option (List ℕ)) (taken rest : List ℕ)
        → list_all is_inside line.now ≡ true
        → IsOn C.meaning C.stands_for K.written K.faults start taken (line.now
        ++ (line_feed ∷ rest)) count command.old out.old.items sink.old
        → Stops C.meaning K.written K.faults start left taken out.new.items sink.new halt) }
    ensures not_flushed { K.flushed sink.new ≡ K.flushed sink.old }
{
    take_line(command, count, line, out)?;
    if out.len() < MOST_PENDING {
        return Ok(());
    }
    write_pending(out, sink)
}

/// Has the command say what may be said before more lines come, where it was given some after the first `before`.
pub(crate) fn pause<C: Command>(
    command: &mut C,
    before: usize,
    count: usize,
    out: &mut Vec<u8>,
) -> Result<(), Halt>
    requires counted { IsCounted C.stands_for command.old out.old.items count }
    requires few { count ≤ MOST_LINES }
    ensures stands { OnOk result ((lines : Lines) (text : List ℕ)
        → C.stands_for command.old lines (text ++ out.old.items)
        → C.stands_for command.new lines (text ++ out.new.items)) }
    ensures stopped { IfErr result (λ halt. halt ≡ Halt.Memory) }
{
    if count > before {
        command.pause(out)?;
    }
    Ok(())
}

/// How many lines were given to the command, and how many bytes are left after the last line feed.
#[derive(Clone, Copy)]
pub(crate) struct Walked {
    pub count: usize,
    pub left: usize,
}

/// Gives each line of these bytes that a line feed ends to the command, after so many lines.
pub(crate) fn take_lines<C: Command, K: Sink>(
    command: &mut C,
    count: usize,
    bytes: &[u8],
    out: &mut Vec<u8>,
    sink: &mut K,
) -> Result<Walked, Halt>
    requires counted { IsCounted C.stands_for command.old out.old.items count }
    requires few { count ≤ MOST_LINES }
    ensures left { IfOk result (λ walked. walked.left ≤ length bytes.now) }
    ensures open_end { IfOk result (λ walked. list_all is_inside (drop (length bytes.now - walked.left) bytes.now)
        ≡ true) }
    ensures few { IfOk result (λ walked. walked.count ≤ MOST_LINES) }
    ensures goes_on { IfOk result (λ walked. count * (LONGEST_LINE + 1) + length bytes.now
        ≤ walked.count * (LONGEST_LINE + 1) + walked.left) }
    ensures counted { IfOk result (λ walked. IsCounted C.stands_for command.new out.new.items walked.count) }
    ensures on { IfOk result (λ walked. (start : K) (taken : List ℕ)
        → IsOn C.meaning C.stands_for K.written K.faults start taken bytes.now count command.old out.old.items sink.old
        → IsOn C.meaning C.stands_for K.written K.faults start taken (drop (length bytes.now - walked.left) bytes.now)
        walked.count command.new out.new.items sink.new) }
    ensures stopped { IfErr result (λ halt. (start : K) (left : Option (List ℕ)) (taken : List ℕ)
        → IsOn C.meaning C.stands_for K.written K.faults start taken bytes.now count command.old out.old.items sink.old
        → Stops C.meaning K.written K.faults start left taken out.new.items sink.new halt) }
    ensures not_flushed { K.flushed sink.new ≡ K.flushed sink.old }
{
    let mut count = count;
    let mut rest = bytes;
    while let Some(at) = memchr(b'\n', rest) {
        let (line, after) = rest.split_at(at);
        take_and_write(command, count, line, out, sink)?;
        count += 1;
        rest = &after[1..];
    }
    Ok(Walked {
        count,
        left: rest.len(),
    })
}
