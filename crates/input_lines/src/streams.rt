//! The lines of a stream.
ghost use Rattle.std.specs.Prelude.{◌≡◌, ◌∷◌, true, map, IfOk, MatchResult};
ghost use Rattle.std.specs.List.{list_all};
ghost use Rattle.ten_unit.specs.Signs.{element_of, is_sign};
ghost use Rattle.line_grammar.specs.Columns.{IsColumn};
ghost use Rattle.input_lines.specs.StreamLine.{IsStreamLine};

use crate::receptions::signs;
use line_grammar::{Column, column};

/// Reads a line after its `s`.
fn elements_line<'a>(line: &[u8], rest: &'a [u8]) -> Result<&'a [u8], Column>
    requires { line.now ≡ 115 ∷ rest.now }
    ensures signs { IfOk result (λ signs. list_all is_sign signs.now ≡ true) }
    ensures line { MatchResult result (λ signs. IsStreamLine (map element_of signs.now) line.now)
        (λ n. IsColumn IsStreamLine line.now n) }
{
    match signs(rest) {
        Ok(signs) => Ok(signs),
        Err(left) => Err(column(line, left)),
    }
}

/// Reads one line of a stream: the signs of the elements that it adds, `Y`, `B`, and `-` for a lost one. An empty line
/// and a comment add none. An error is the column of bytes that are no such line.
#[tactic(auto, using(crate::proofs::Choices::other_stream))]
pub fn stream_line(line: &[u8]) -> Result<&[u8], Column>
    ensures signs { IfOk result (λ signs. list_all is_sign signs.now ≡ true) }
    ensures line { MatchResult result (λ signs. IsStreamLine (map element_of signs.now) line.now)
        (λ n. IsColumn IsStreamLine line.now n) }
{
    let Some((first, rest)) = line.split_first() else {
        return Ok(&[]);
    };
    match *first {
        b'#' => Ok(&[]),
        b's' => elements_line(line, rest),
        _ => Err(1),
    }
}
