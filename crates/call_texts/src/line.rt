//! Readers that keep what is left of a line in a cursor.
ghost use Rattle.std.specs.Prelude.{◌≡◌, OnOk, IfOk, IsOkAnd, IfErr, Ok, Err};
ghost use Rattle.line_grammar.specs.Grammar.{none};
ghost use Rattle.line_grammar.specs.inside.Reading.{after, ended};

use cursor::Cursor;
use line_grammar::Left;

/// Reads a word.
pub fn word(line: &mut Cursor, text: &[u8]) -> Result<(), Left>
    ensures read { OnOk result (after text.now line.old ≡ Ok line.new) }
    ensures left { IfErr result (λ left. after text.now line.old ≡ Err left) }
{
    line.go_on(line_grammar::word(text, line.rest())?);
    Ok(())
}

/// Reads a word that is nearly always there.
#[inline(always)]
pub fn whole_word(line: &mut Cursor, text: &[u8]) -> Result<(), Left>
    ensures read { OnOk result (after text.now line.old ≡ Ok line.new) }
    ensures left { IfErr result (λ left. after text.now line.old ≡ Err left) }
{
    line.go_on(line_grammar::whole_word(text, line.rest())?);
    Ok(())
}

/// Goes on after a value that was read at the front of these bytes.
pub fn take<'a, T: Copy>(
    line: &mut Cursor<'a>,
    read: &Result<(T, &'a [u8]), Left>,
) -> Result<T, Left>
    ensures value { IfOk result (λ value. IsOkAnd read.now (λ parts. (parts.0 ≡ value) × (parts.1.now ≡ line.new))) }
    ensures left { IfErr result (λ left. read.now ≡ Err left) }
{
    match read {
        Ok((value, rest)) => {
            line.go_on(rest);
            Ok(*value)
        }
        Err(left) => Err(*left),
    }
}

/// Whether nothing is left.
pub fn end(line: &Cursor) -> Result<(), Left>
    ensures end { OnOk result (ended line.now ≡ Ok none) }
    ensures left { IfErr result (λ left. ended line.now ≡ Err left) }
{
    line_grammar::end(line.rest())
}
