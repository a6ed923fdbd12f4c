//! Lines of evidence.
ghost use Rattle.std.specs.Prelude.{◌≡◌, ◌∷◌, ◌++◌, ◌<◌, ℕ, List, [], length, codes, All, IfOk, IfErr, Err};
ghost use Rattle.line_grammar.specs.Bytes.{letter_e};
ghost use Rattle.slot_evidence.specs.Sheet.{IsEnds};
ghost use Rattle.line_grammar.specs.Grammar.{Grammar, word as behind};
ghost use Rattle.line_grammar.specs.Repeats.{repeated};
ghost use Rattle.line_grammar.specs.inside.Reading.{read};
ghost use Rattle.input_lines.specs.ReceiverLine.{ReceiverLine as Line, IsLine, IsPair, grouped, pair as pair_row};
ghost use Rattle.input_lines.specs.Lines.{ReadsJoin, Says, facts_of_pairs};
ghost use Rattle.input_lines.specs.inside.Reading.{pairs_text};

use crate::fault::LineFault;
use crate::groups::group;
use crate::join::JoinLine;
use line_grammar::{Left, column, free_number, word};
use slot_evidence::Sheet;

/// A place and a symbol after a blank, and what follows them.
fn pair(bytes: &[u8]) -> Result<((u8, u8), &[u8]), Left>
    ensures pair { IfOk result (λ parts. IsPair parts.0 × (bytes.now ≡ pairs_text (parts.0 ∷ []) ++ parts.1.now)) }
    ensures goes_on { IfOk result (λ parts. (rest : Grammar) (left : ℕ) → read rest parts.1.now ≡ Err left
        → read (behind (codes " ") (pair_row rest)) bytes.now ≡ Err left) }
    ensures left { IfErr result (λ left. (rest : Grammar)
        → read (behind (codes " ") (pair_row rest)) bytes.now ≡ Err left) }
{
    let rest = word(b" ", bytes)?;
    let (place, rest) = free_number(0, 63, rest)?;
    let rest = word(b":", rest)?;
    let (symbol, rest) = free_number(0, 127, rest)?;
    Ok(((place as u8, symbol as u8), rest))
}

/// The sheet of any number of pairs, up to the end of the line.
fn pairs(bytes: &[u8]) -> Result<Sheet, Left>
    ensures pairs { IfOk result (λ sheet. (pairs : List (ℕ × ℕ))
        × (All IsPair pairs × ((bytes.now ≡ pairs_text pairs) × IsEnds (facts_of_pairs pairs) sheet))) }
    ensures left { IfErr result (λ left. (n : ℕ) → length bytes.now < n
        → read (repeated pair_row n) bytes.now ≡ Err left) }
{
    let mut sheet = Sheet::empty();
    let mut rest = bytes;
    while !rest.is_empty() {
        let ((place, symbol), back) = pair(rest)?;
        sheet.add(place, symbol);
        rest = back;
    }
    Ok(sheet)
}

/// What a line of evidence says, by the bytes after its `e`.
fn evidence(bytes: &[u8]) -> Result<JoinLine, Left>
    ensures line { IfOk result (λ read. (says : Line) × (IsLine says (letter_e ∷ bytes.now) × Says says read)) }
    ensures left { IfErr result (λ left. (n : ℕ) → length bytes.now < n
        → read (grouped (repeated pair_row n)) bytes.now ≡ Err left) }
{
    let (group, rest) = group(bytes)?;
    let sheet = pairs(rest)?;
    Ok(JoinLine::Evidence { group, sheet })
}

/// Reads evidence, which is this line after its `e`.
pub(crate) fn evidence_line(line: &[u8], rest: &[u8]) -> Result<JoinLine, LineFault>
    requires { line.now ≡ letter_e ∷ rest.now }
    ensures { ReadsJoin line.now result }
{
    match evidence(rest) {
        Ok(read) => Ok(read),
        Err(left) => Err(LineFault::Column(column(line, left))),
    }
}
