//! The command `capture`.
ghost use Rattle.std.specs.Prelude.{◌+◌, ◌-◌, ◌<◌, ◌≤◌, ◌^◌, ◌++◌, List, ℕ, [], map, length, take, IfOk, OnOk};
ghost use Rattle.ten_unit.specs.declared.character.Element.{Element as Taken};
ghost use Rattle.ten_unit.specs.Signs.{element_of as element_at};
ghost use Rattle.long_capture.specs.Captures.{taken, IsOpen};
ghost use Rattle.stream_capture.specs.Telling.{capture_meaning};
ghost use Rattle.stream_capture.specs.inside.Progress.{HasTold, EndsTold, HasToldAll, TellsOne, HasRoom, StandsFor};
ghost use Rattle.stream_capture.specs.inside.Gives.{gives_text};

use crate::lines::append_start;
use byte_streams::Status;
use input_lines::{one_stream_line, stream_line};
use line_engine::{Command, Refusal};
use long_capture::{Capture, Start, starts_go_on, taking_ends};
use std::alloc::AllocError;

/// The command that writes a line of each start of a stream as soon as it is decided.
#[derive(Drop)]
pub struct Capturing {
    pub(crate) capture: Capture,
    /// How many starts were told.
    pub(crate) count: u32,
    /// A call was reported at each of them.
    pub(crate) is_well: bool,
}

impl Capturing {
    /// The command before its first line.
    pub fn new() -> Capturing
        ensures { StandsFor result [] [] }
    {
        Capturing {
            capture: Capture::new(),
            count: 0,
            is_well: true,
        }
    }

    /// Appends the line of a start.
    // In a frame and a body of its own: nearly all elements begin nothing.
    #[inline(never)]
    fn append_start(&mut self, start: &Start, out: &mut Vec<u8>) -> Result<(), AllocError>
        requires { self.old.count < 2 ^ 32 - 1 }
        ensures { OnOk result (TellsOne self.old self.new start.now out.old.items out.new.items) }
    {
        self.is_well &= append_start(out, self.count, start.at, &start.sheet)?;
        self.count += 1;
        Ok(())
    }

    /// Takes a front of the stream's next elements, of which these are the signs, at least one if there is one, and
    /// answers how many.
    fn take_front(&mut self, signs: &[u8], out: &mut Vec<u8>) -> Result<usize, AllocError>
        requires few { self.old.count < 2 ^ 32 - 1 }
        requires short { taken self.old.capture + length signs.now ≤ 2 ^ 40 }
        requires going { IsOpen self.old.capture }
        ensures front { IfOk result (λ count. count ≤ length signs.now) }
        ensures some { IfOk result (λ count. 0 < length signs.now → 0 < count) }
        ensures told { IfOk result (λ count. (e : List Taken) (text : List ℕ)
            → HasTold self.old e (text ++ out.old.items)
            → HasTold self.new (e ++ take count (map element_at signs.now)) (text ++ out.new.items)) }
    {
        starts_go_on();
        let block = self.capture.take_signs(signs);
        let count = block.count;
        let start = block.start;
        match start {
            Some(start) => {
                self.append_start(&start, out)?;
                Ok(count)
            }
            None => Ok(count),
        }
    }

    /// Takes the elements of a line, as its signs.
    fn take_signs(&mut self, signs: &[u8], out: &mut Vec<u8>) -> Result<(), AllocError>
        requires { HasRoom self.old out.old.items (length signs.now) }
        ensures { OnOk result ((e : List Taken) (text : List ℕ) → HasTold self.old e (text ++ out.old.items)
            → HasTold self.new (e ++ map element_at signs.now) (text ++ out.new.items)) }
    {
        let mut count = 0;
        while count < signs.len() {
            count += self.take_front(&signs[count..], out)?;
        }
        Ok(())
    }

    /// Appends the lines of the starts that the stream's end decides.
    fn take_end(&mut self, out: &mut Vec<u8>) -> Result<(), AllocError>
        requires { self.old.count < 2 ^ 31 }
        ensures { OnOk result ((e : List Taken) (text : List ℕ) → EndsTold self.old e (text ++ out.old.items)
            → HasToldAll self.new e (text ++ out.new.items)) }
    {
        starts_go_on();
        while let Some(start) = self.capture.finish() {
            self.append_start(&start, out)?;
        }
        Ok(())
    }
}

impl Command for Capturing {
    ghost meaning = { capture_meaning };

    ghost stands_for = { StandsFor };

    fn take(&mut self, line: &[u8], out: &mut Vec<u8>) -> Result<(), Refusal> {
        one_stream_line();
        let signs = stream_line(line)?;
        self.take_signs(signs, out)?;
        Ok(())
    }

    fn finish(&mut self, out: &mut Vec<u8>) -> Result<Status, AllocError> {
        taking_ends();
        self.take_end(out)?;
        Ok(Status::of(self.is_well))
    }

    ghost gives = { λ command lines text stands. gives_text command lines text stands };
}
