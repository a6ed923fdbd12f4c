//! The command `encode`.
ghost use Rattle.std.specs.Prelude.{◌≡◌, ◌<◌, ◌+◌, ◌++◌, ◌∷◌, Bool, true, false, length, [], OnOk};
ghost use Rattle.encode_calls.specs.Encoding.{calls_of, encode_meaning, encoded};
ghost use Rattle.encode_calls.specs.inside.Progress.{HasEncoded};

use crate::lines::{Room, append_line};
use input_lines::{CallLine, Status, call_line};
use line_engine::{Command, MOST_LINES, Refusal};
use std::alloc::AllocError;

/// The length of a dot pattern (ITU-R M.493, dot pattern).
pub trait Dots: Drop {
    /// Whether it is long.
    ghost long: { Bool };

    /// Whether it has 200 dots, and not 20.
    fn is_long() -> bool
        ensures { result ≡ long };
}

/// 20 dots.
#[derive(Drop)]
pub struct ShortDots;

/// 200 dots.
#[derive(Drop)]
pub struct LongDots;

impl Dots for ShortDots {
    ghost long = { false };

    fn is_long() -> bool {
        false
    }
}

impl Dots for LongDots {
    ghost long = { true };

    fn is_long() -> bool {
        true
    }
}

/// The command that writes the line of a reception for each call, which heard its whole transmission.
#[derive(Drop)]
pub struct Encode<D: Dots> {
    pub(crate) count: u32,
    dots: D,
    room: Room,
}

impl<D: Dots> Encode<D> {
    /// The command before its first line.
    pub fn new(dots: D) -> Encode<D>
        ensures { HasEncoded D.long result.count [] [] }
    {
        Encode {
            count: 0,
            dots,
            room: Room::new(),
        }
    }

    /// Appends what a line of calls gives.
    fn encode(&mut self, says: &CallLine, out: &mut Vec<u8>) -> Result<(), AllocError>
        requires few { self.old.count < MOST_LINES }
        ensures text { OnOk result (out.new.items
            ≡ out.old.items ++ encoded D.long self.old.count (calls_of (says.now ∷ []))) }
        ensures count { OnOk result (self.new.count ≡ self.old.count + length (calls_of (says.now ∷ []))) }
    {
        match says {
            CallLine::Nothing => Ok(()),
            CallLine::Call { call, expansion } => {
                append_line(
                    out,
                    &mut self.room,
                    D::is_long(),
                    self.count,
                    call,
                    expansion,
                )?;
                self.count += 1;
                Ok(())
            }
        }
    }
}

impl<D: Dots> Command for Encode<D> {
    ghost meaning = { encode_meaning D.long };

    ghost stands_for = { λ command lines text. HasEncoded D.long command.count lines text };

    fn take(&mut self, line: &[u8], out: &mut Vec<u8>) -> Result<(), Refusal> {
        match call_line(line) {
            Ok(says) => {
                self.encode(&says, out)?;
                Ok(())
            }
            Err(n) => Err(Refusal::Column(n)),
        }
    }

    fn finish(&mut self, _out: &mut Vec<u8>) -> Result<Status, AllocError> {
        Ok(Status::new(0))
    }

    ghost gives = { λ command lines text stands. record {
      said = stands.said;
      are_lines = stands.are_lines;
      text_is = stands.text_is;
    } };
}
