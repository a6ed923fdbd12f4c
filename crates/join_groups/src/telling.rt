//! The line of each group: its answer, or its ends.
ghost use Rattle.std.specs.Prelude.{◌≡◌, ℕ, ◌++◌, List, [], IfOk, if◌then◌else◌};
ghost use Rattle.slot_evidence.specs.Facts.{Facts};
ghost use Rattle.slot_evidence.specs.Sheet.{IsEnds};
ghost use Rattle.input_lines.specs.ReceiverLine.{ReceiverLine};
ghost use Rattle.join_groups.specs.Output.{Telling, TellsAnswer, TellsEvidence, IsGroupsText};
ghost use Rattle.join_groups.specs.Holds.{HoldsSome};
ghost use Rattle.join_groups.specs.inside.Kept.{Keeps};

use crate::groups::NamedGroups;
use arrayvec::ArrayVec;
use call_texts::append_answer_line;
use input_lines::put_evidence_line;
use slot_evidence::Sheet;
use slot_join::{is_reported, report};
use std::alloc::AllocError;

/// A way to write the line of a group.
pub trait GroupWriter: Drop {
    /// What is told of a group with these facts.
    ghost tells: { Telling };

    /// Appends the line of a group with this sheet, and answers whether all is well with it.
    fn append_group(group: u32, sheet: &Sheet, out: &mut Vec<u8>) -> Result<bool, AllocError>
        ensures { IfOk result (λ is_well. (line : List ℕ) × ((out.new.items ≡ out.old.items ++ line)
            × ((F : Facts) → IsEnds F sheet.now
            → tells F (record { group = group; line = line; is_well = is_well })))) };
}

/// The line of an answer has at most this many bytes.
const LONGEST_ANSWER: usize = 183;

/// Writes the answer to a group's facts; all is well where a call was reported.
#[derive(Drop)]
pub struct WriteAnswers;

impl GroupWriter for WriteAnswers {
    ghost tells = { TellsAnswer };

    fn append_group(group: u32, sheet: &Sheet, out: &mut Vec<u8>) -> Result<bool, AllocError> {
        let answer = report(sheet);
        let mut line = ArrayVec::<u8, LONGEST_ANSWER>::new();
        append_answer_line(&mut line, group, &answer);
        out.extend_from_slice(&line)?;
        Ok(is_reported(&answer))
    }
}

/// Writes the ends of a group's facts; all is well.
#[derive(Drop)]
pub struct WriteEvidence;

impl GroupWriter for WriteEvidence {
    ghost tells = { TellsEvidence };

    fn append_group(group: u32, sheet: &Sheet, out: &mut Vec<u8>) -> Result<bool, AllocError> {
        out.extend_from_slice(&put_evidence_line(group, sheet))?;
        Ok(true)
    }
}

/// Writes the line of each group by rising number, and answers whether all is well with all of them. No reception waits
/// any more.
pub fn append_groups<T: GroupWriter>(
    groups: &NamedGroups,
    out: &mut Vec<u8>,
) -> Result<bool, AllocError>
    requires { HoldsSome groups.now }
    ensures { IfOk result (λ is_well. (said : List ReceiverLine) → Keeps groups.now said → groups.now.batch.items ≡ []
        → (text : List ℕ) × ((out.new.items ≡ out.old.items ++ text)
        × IsGroupsText T.tells said text (if is_well then 0 else 1))) }
{
    let mut is_well = true;
    for (group, number) in groups.numbers.iter() {
        is_well &= T::append_group(*group, &groups.sheets[*number], out)?;
    }
    Ok(is_well)
}
