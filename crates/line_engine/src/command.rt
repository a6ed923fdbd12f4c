//! A command: what is made of the lines of an input.
ghost use Rattle.std.specs.Prelude.{◌≡◌, ℕ, ◌+◌, ◌≤◌, ◌⊎◌, List, [], ◌∷◌, ◌++◌, length, IfOk, IfErr, OnOk};
ghost use Rattle.line_engine.specs.declared.command.Refusal.TheVariants.{Column as column, Memory as memory};
ghost use Rattle.line_engine.specs.Lines.{Lines};
ghost use Rattle.line_engine.specs.Meaning.{Meaning};
ghost use Rattle.line_engine.specs.Commands.{IsTakenBehind, IsRefusedBehind, KeepsText, StandsBelow};
ghost use Rattle.line_engine.specs.Endings.{IsFinished};

use crate::bounds::{LONGEST_LINE, MOST_LINES};
use byte_streams::Status;
use line_grammar::Column;
use std::alloc::{AllocError, AllocFailed};

/// Why a command doesn't take a line.
#[derive(Clone, Copy, Debug, PartialEq, Eq)]
pub enum Refusal {
    /// The line is ill-formed at this column, counted from 1.
    Column(Column),
    /// The line brings a group more than the command can hold.
    TooManyGroups,
    /// There was no memory.
    Memory,
}

impl From<Column> for Refusal {
    ghost from_gives = { λ n e. e ≡ column n };

    fn from(n: Column) -> Self {
        Refusal::Column(n)
    }
}

impl From<AllocError> for Refusal {
    ghost from_gives = { λ _ e. e ≡ memory };

    fn from(_: AllocError) -> Self {
        Refusal::Memory
    }
}

impl<T: Drop> From<AllocFailed<T>> for Refusal {
    ghost from_gives = { λ _ e. e ≡ memory };

    fn from(_: AllocFailed<T>) -> Self {
        Refusal::Memory
    }
}

/// A command that reads lines, by its meaning. It is given one line after the other, and appends what it has to say
/// to a buffer, which may be emptied between two lines.
pub trait Command: Drop {
    /// What its lines mean.
    ghost meaning: { Meaning };

    /// It was given these lines, and this is all the text that they gave.
    ghost stands_for: { Self → Lines → List ℕ → Type 0 };

    /// Takes the next line, without its line feed, and appends what it gives. After a refusal of the line nothing was
    /// appended, and the command isn't asked again.
    fn take(&mut self, line: &[u8], out: &mut Vec<u8>) -> Result<(), Refusal>
        requires short { length line.now ≤ LONGEST_LINE }
        requires ready { StandsBelow stands_for self.old out.old.items MOST_LINES }

        // Whatever lines it stood for and whatever of their text is written.
        ensures stands { OnOk result ((lines : Lines) (written : List ℕ)
            → stands_for self.old lines (written ++ out.old.items)
            → stands_for self.new (lines ++ line.now ∷ []) (written ++ out.new.items)) }
        ensures taken { OnOk result ((lines : Lines) (written : List ℕ)
            → stands_for self.old lines (written ++ out.old.items)
            → IsTakenBehind meaning lines line.now) }
        ensures refused { IfErr result (λ refusal. (lines : Lines) (written : List ℕ)
            → stands_for self.old lines (written ++ out.old.items)
            → IsRefusedBehind meaning lines line.now refusal) }
        ensures unsaid { IfErr result (λ refusal. KeepsText refusal out.old.items out.new.items) };

    /// Appends what may be said before more lines come. The engine asks for it after the lines of each read, before it
    /// writes what is pending and reads on. A command that has nothing to say there keeps this.
    fn pause(&mut self, out: &mut Vec<u8>) -> Result<(), AllocError>
        requires { StandsBelow stands_for self.old out.old.items (MOST_LINES + 1) }
        ensures { OnOk result ((lines : Lines) (written : List ℕ)
            → stands_for self.old lines (written ++ out.old.items)
            → stands_for self.new lines (written ++ out.new.items)) }
    {
        let _text = out;
        Ok(())
    }

    /// Ends the input: appends what is still to be said, and answers the status, 0 or 1.
    fn finish(&mut self, out: &mut Vec<u8>) -> Result<Status, AllocError>
        requires { StandsBelow stands_for self.old out.old.items (MOST_LINES + 1) }
        ensures ends { IfOk result (λ status. (lines : Lines) (written : List ℕ)
            → stands_for self.old lines (written ++ out.old.items)
            → meaning.Ends lines (written ++ out.new.items) status) }
        ensures finished { IfOk result IsFinished };

    /// What it stands for is what its lines give.
    ghost gives: { (command : Self) (lines : Lines) (text : List ℕ) → stands_for command lines text
        → meaning.Gives lines text };
}
