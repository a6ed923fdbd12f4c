//! Laws: each function here does nothing, and its contract is a theorem over definitions.
ghost use Rattle.std.specs.Prelude.{◌≡◌, ℕ, ◌⊎◌, List, [], ◌∷◌, ◌++◌};
ghost use Rattle.line_engine.specs.declared.faults.Fault.{Fault};
ghost use Rattle.line_engine.specs.Lines.{Lines, lines_of, IsCutInto};
ghost use Rattle.line_engine.specs.Faults.{IsFaultless, IsFirstFault};
ghost use Rattle.line_engine.specs.Output.{IsSoFar, IsOutput, Asks};
ghost use Rattle.line_engine.specs.Determined.{HasOneColumn, IsDecided, IsDetermined, BeginsWith};
ghost use Rattle.line_engine.specs.Said.{said};

use crate::bounds::{LONGEST_LINE, MOST_LINES, MOST_TAKEN};
use crate::command::Command;

/// The law that fixes the limits of an input, and the most bytes that a run takes from its source. It does nothing.
pub fn limits()
    ensures lines { MOST_LINES ≡ 65536 }
    ensures bytes { LONGEST_LINE ≡ 4200 }
    ensures taken { MOST_TAKEN ≡ 275447808 }
{}

/// Lines have one first fault, at one line, or none; and a fault of whole lines stays the first one, whatever follows.
pub fn one_first_fault<C: Command>()
    ensures one { HasOneColumn C.meaning → (lines : Lines) (m n : ℕ) (a b : Fault) → IsFirstFault C.meaning lines m a
        → IsFirstFault C.meaning lines n b → (m ≡ n) × (a ≡ b) }
    ensures none { (lines : Lines) (number : ℕ) (fault : Fault) → IsFaultless C.meaning lines
        → IsFirstFault C.meaning lines number fault → ⊥ }
    ensures either { IsDecided C.meaning → (lines : Lines)
        → ((number : ℕ) × (fault : Fault) × IsFirstFault C.meaning lines number fault) ⊎ IsFaultless C.meaning lines }
    ensures stays { (bytes : List ℕ) (lines : Lines) (end : List ℕ) (number : ℕ) (fault : Fault)
        → IsCutInto bytes lines end → IsFirstFault C.meaning lines number fault
        → (rest : List ℕ) → IsFirstFault C.meaning (lines_of (bytes ++ rest)) number fault }
{}

/// Lines that determine their output ask for one text and status, and whatever of it is written before the input's end
/// begins it.
pub fn one_output<C: Command>()
    ensures one { IsDetermined C.meaning → (lines : Lines) (a b : List ℕ) (s t : ℕ) → IsOutput C.meaning lines a s
        → IsOutput C.meaning lines b t → (a ≡ b) × (s ≡ t) }
    ensures so_far { IsDetermined C.meaning → (lines : Lines) (text whole : List ℕ) (status : ℕ)
        → IsSoFar C.meaning lines text → IsOutput C.meaning lines whole status → BeginsWith whole text }
    ensures asked { IsDetermined C.meaning → (lines : Lines) (text whole : List ℕ) (status : ℕ)
        → Asks C.meaning lines text → IsOutput C.meaning lines whole status → BeginsWith whole text }
{}

/// What lines say, one line after the other.
pub fn said_lines()
    ensures none { (says : Lines → List ℕ → List ℕ) → said says [] ≡ [] }
    ensures push { (says : Lines → List ℕ → List ℕ) (lines : Lines) (line : List ℕ)
        → said says (lines ++ line ∷ []) ≡ said says lines ++ says lines line }
{}
