//! Lines of receptions.
ghost use Rattle.std.specs.Prelude.{◌≡◌, ◌∷◌, ◌++◌, true, map, codes, IfOk, IfErr, IfSome, Err};
ghost use Rattle.std.specs.List.{list_all};
ghost use Rattle.ten_unit.specs.Signs.{element_of, is_sign};
ghost use Rattle.line_grammar.specs.Bytes.{letter_r};
ghost use Rattle.line_grammar.specs.Tokens as tokens;
ghost use Rattle.line_grammar.specs.Tokens.{is_one_of, IsToken};
ghost use Rattle.line_grammar.specs.inside.Reading.{read};
ghost use Rattle.input_lines.specs.ReceiverLine as lines;
ghost use Rattle.input_lines.specs.ReceiverLine.{behind_blank, grouped, reception, IsLine};
ghost use Rattle.input_lines.specs.Lines.{ReadsJoin};
ghost use Rattle.input_lines.specs.inside.Reading.{blank_and_signs, body_text};

use crate::fault::LineFault;
use crate::groups::group;
use crate::join::JoinLine;
use line_grammar::{Left, column, end, run, word};
use slot_evidence::Reception;
use std::alloc::{AllocError, Global};

/// Whether all of these bytes are signs. It looks at each of them, so that the compiler takes many in a step.
fn are_signs(bytes: &[u8]) -> bool
    ensures { result ≡ list_all (is_one_of (codes "YB-")) bytes.now }
{
    let mut are = true;
    for b in bytes {
        are &= (*b == b'Y') | (*b == b'B') | (*b == b'-');
    }
    are
}

/// A blank and signs, at least one, up to the line's end.
pub(crate) fn signs(bytes: &[u8]) -> Result<&[u8], Left>
    ensures signs { IfOk result (λ signs. (bytes.now ≡ codes " " ++ signs.now)
        × IsToken (tokens.run (codes "YB-")) signs.now) }
    ensures left { IfErr result (λ left. read blank_and_signs bytes.now ≡ Err left) }
{
    let signs = word(b" ", bytes)?;
    if !signs.is_empty() && are_signs(signs) {
        return Ok(signs);
    }
    let (signs, rest) = run(b"YB-", signs)?;
    end(rest)?;
    Ok(signs)
}

/// The signs of a body; none where the line ends.
fn body(bytes: &[u8]) -> Result<&[u8], Left>
    ensures signs { IfOk result (λ signs. (list_all is_sign signs.now ≡ true)
        × (bytes.now ≡ body_text (map element_of signs.now))) }
    ensures left { IfErr result (λ left. read (behind_blank lines.signs) bytes.now ≡ Err left) }
{
    if bytes.is_empty() {
        return Ok(bytes);
    }
    signs(bytes)
}

/// The group and the signs of a reception, after its `r`.
fn group_and_signs(bytes: &[u8]) -> Result<(u32, &[u8]), Left>
    ensures signs { IfOk result (λ parts. list_all is_sign parts.1.now ≡ true) }
    ensures line { IfOk result (λ parts. IsLine (reception parts.0 (map element_of parts.1.now)) (letter_r ∷ bytes.now)) }
    ensures left { IfErr result (λ left. read (grouped (behind_blank lines.signs)) bytes.now ≡ Err left) }
{
    let (group, rest) = group(bytes)?;
    let signs = body(rest)?;
    Ok((group, signs))
}

/// The elements of signs.
pub(crate) fn elements_of(alloc: Global, signs: &[u8]) -> Result<Reception, AllocError>
    requires { list_all is_sign signs.now ≡ true }
    ensures { IfOk result (λ elements. elements ≡ map element_of signs.now) }
{
    Ok(Reception::of_signs(alloc, signs)?.unwrap())
}

/// The elements of a body of at least one, read 64 signs at once. `None` comes where no such body is there.
#[inline(always)]
fn packed_body(alloc: Global, bytes: &[u8]) -> Result<Option<Reception>, AllocError>
    ensures { IfOk result (λ read. IfSome read (λ elements. bytes.now ≡ body_text elements)) }
{
    let Some((blank, signs)) = bytes.split_first() else {
        return Ok(None);
    };
    if *blank != b' ' || signs.is_empty() {
        return Ok(None);
    }
    Reception::of_signs(alloc, signs)
}

/// The group and the elements of a reception, after its `r`, where it has some. Most lines are read by this.
#[inline(always)]
fn packed_line(alloc: Global, bytes: &[u8]) -> Result<Option<(u32, Reception)>, AllocError>
    ensures { IfOk result (λ read. IfSome read (λ parts. IsLine (reception parts.0 parts.1) (letter_r ∷ bytes.now))) }
{
    let Ok((group, body)) = group(bytes) else {
        return Ok(None);
    };
    let Some(elements) = packed_body(alloc, body)? else {
        return Ok(None);
    };
    Ok(Some((group, elements)))
}

/// The group and the elements that this line says, where it is a reception of at least one element. Most lines of
/// receptions are read by this alone.
#[inline(always)]
pub fn packed_reception(alloc: Global, line: &[u8]) -> Result<Option<(u32, Reception)>, AllocError>
    ensures { IfOk result (λ read. IfSome read (λ parts. IsLine (reception parts.0 parts.1) line.now)) }
{
    match line.split_first() {
        Some((b'r', rest)) => packed_line(alloc, rest),
        _ => Ok(None),
    }
}

/// Reads a reception, which is this line after its `r`.
pub(crate) fn reception_line(alloc: Global, line: &[u8], rest: &[u8]) -> Result<JoinLine, LineFault>
    requires { line.now ≡ letter_r ∷ rest.now }
    ensures { ReadsJoin line.now result }
{
    if let Some((group, elements)) = packed_line(alloc, rest)? {
        return Ok(JoinLine::Reception { group, elements });
    }
    match group_and_signs(rest) {
        Ok((group, signs)) => {
            let elements = elements_of(alloc, signs)?;
            Ok(JoinLine::Reception { group, elements })
        }
        Err(left) => Err(LineFault::Column(column(line, left))),
    }
}
