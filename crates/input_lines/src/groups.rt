//! The group that a line names.
ghost use Rattle.std.specs.Prelude.{◌≡◌, ℕ, IfOk, IfErr, Err};
ghost use Rattle.line_grammar.specs.Grammar.{Grammar};
ghost use Rattle.line_grammar.specs.inside.Reading.{read};
ghost use Rattle.input_lines.specs.ReceiverLine.{behind_blank, grouped};
ghost use Rattle.input_lines.specs.inside.Reading.{IsBehindBlank, IsNamed};

use line_grammar::{Left, free_number, word};

/// The group that these bytes name at their front, 0 where they name none, and what follows it.
pub(crate) fn group(bytes: &[u8]) -> Result<(u32, &[u8]), Left>
    ensures named { IfOk result (λ parts. IsNamed parts.0 bytes.now parts.1.now) }
    ensures goes_on { IfOk result (λ parts. (rest : Grammar) (left : ℕ) → IsBehindBlank rest
        → read (behind_blank rest) parts.1.now ≡ Err left → read (grouped (behind_blank rest)) bytes.now ≡ Err left) }
    ensures left { IfErr result (λ left. (rest : Grammar) → IsBehindBlank rest
        → read (grouped (behind_blank rest)) bytes.now ≡ Err left) }
{
    match word(b" g", bytes) {
        Ok(digits) => {
            let (number, rest) = free_number(0, 4_294_967_295, digits)?;
            Ok((number as u32, rest))
        }
        Err(_) => Ok((0, bytes)),
    }
}
