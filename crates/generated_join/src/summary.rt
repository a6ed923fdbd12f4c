//! The summary of a generated join, and its line.
ghost use Rattle.std.specs.Prelude.{◌≡◌, ◌+◌, ◌<◌, ◌≤◌, ◌++◌, List, if◌then◌else◌, codes, decimal, length};
ghost use Rattle.std.specs.List.{list_all};
ghost use Rattle.arrayvec.specs.ArrayVec.{array_vec_len};
ghost use Rattle.input_lines.specs.ReceiverLine.{ReceiverLine};
ghost use Rattle.slot_join.specs.Answer.{is_reported as tells_call};
ghost use Rattle.generated_join.specs.Summary.{IsSummary, summary_text, is_missing as names_missing};
ghost use Rattle.generated_join.specs.inside.Counted.{HasCounted};

use crate::hearing::RECEPTIONS;
use arrayvec::ArrayVec;
use line_grammar::{append, append_number};
use slot_join::{Joined, is_reported};

/// The numbers of a joined input: its groups and receptions, the groups of which a call was reported, and those of
/// which the answer names a missing place.
#[derive(Clone, Copy, Debug, PartialEq, Eq)]
pub struct Summary {
    pub groups: u16,
    pub receptions: u16,
    pub reported: u16,
    pub missing: u16,
}

/// Whether the answer names a missing place.
fn is_missing(answer: &Joined) -> bool
    ensures { result ≡ names_missing answer.now }
{
    matches!(answer, Joined::Missing(_))
}

impl Summary {
    /// The summary of no groups.
    pub(crate) fn new() -> Summary
        ensures { HasCounted 0 result }
    {
        Summary {
            groups: 0,
            receptions: 0,
            reported: 0,
            missing: 0,
        }
    }

    /// The summary of one group more, to whose receptions this is the answer.
    pub(crate) fn with(&self, answer: &Joined) -> Summary
        requires { (self.now.groups < 1000) × (self.now.receptions < 4000) × (self.now.reported < 1000)
            × (self.now.missing < 1000) }
        ensures groups { result.groups ≡ self.now.groups + 1 }
        ensures receptions { result.receptions ≡ self.now.receptions + 4 }
        ensures reported { result.reported ≡ self.now.reported + (if tells_call answer.now then 1 else 0) }
        ensures missing { result.missing ≡ self.now.missing + (if names_missing answer.now then 1 else 0) }
    {
        Summary {
            groups: self.groups + 1,
            receptions: self.receptions + RECEPTIONS,
            reported: self.reported + u16::from(is_reported(answer)),
            missing: self.missing + u16::from(is_missing(answer)),
        }
    }

    /// Whether a call was reported of every group.
    pub fn is_whole(&self) -> bool
        ensures { (said : List ReceiverLine) (is : IsSummary said self.now)
            → result ≡ list_all (λ one. tells_call one.answer) is.all }
    {
        self.reported == self.groups
    }

    /// The four lines of the summary (this project's profile).
    pub fn text(&self) -> ArrayVec<u8, 160>
        ensures { result.items ≡ summary_text self.now }
    {
        let mut out = ArrayVec::new();
        append_line(&mut out, b"groups ", self.groups);
        append_line(&mut out, b"receptions ", self.receptions);
        append_line(&mut out, b"reported ", self.reported);
        append_line(&mut out, b"missing ", self.missing);
        out
    }
}

/// Appends a line of a label and a number.
fn append_line(out: &mut ArrayVec<u8, 160>, label: &[u8], number: u16)
    requires { array_vec_len out.old + (length label.now + 21) ≤ 160 }
    ensures items { out.new.items ≡ out.old.items ++ (label.now ++ (decimal number ++ codes "\n")) }
    ensures len { array_vec_len out.new ≤ array_vec_len out.old + (length label.now + 21) }
{
    append(out, label);
    append_number(out, u64::from(number));
    append(out, b"\n");
}
