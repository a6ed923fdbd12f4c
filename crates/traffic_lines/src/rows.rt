//! Rows of a grammar, and what each row's reader begins with.
ghost use Rattle.std.specs.Prelude.{◌≡◌, false, true, is_ok, List, ℕ, IfOk};
ghost use Rattle.line_grammar.specs.Grammar.{Grammar, Parts, finish, none, part, word};
ghost use Rattle.line_grammar.specs.inside.Reading.{read};
ghost use Rattle.line_grammar.specs.inside.Soundness.{is_sound};
ghost use Rattle.line_grammar.specs.Sections.{labelled, last, ReadsTail};
ghost use Rattle.line_grammar.specs.Rows.{ReadsRow, ReadsWhole};

use call_texts::{Token, end, field};
use cursor::Cursor;
use line_grammar::{Left, column};

/// A value that goes to the end of a line, by rows of a grammar.
pub(crate) trait Rows: Copy {
    /// The rows.
    ghost rows: { Grammar → Grammar };

    /// Its values are in their ranges.
    ghost lawful: { Self → Type 0 };

    /// Its parts, and those of what follows it.
    ghost parts: { Self → Parts → Parts };

    /// Reads these bytes whole.
    fn read(bytes: &[u8]) -> Result<Self, Left>
        ensures { ReadsRow rows (last 0) lawful parts bytes.now result };
}

/// Rows of which the first bytes are known.
pub(crate) trait Begun: Rows {
    /// Whether a row may begin as these bytes do. Where none may, none is read.
    fn begins(bytes: &[u8]) -> bool
        ensures { result ≡ false → is_ok (read (Self.rows finish) bytes.now) ≡ false };
}

/// Reads a value after its label, to the end of the line.
pub(crate) fn to_end<T: Token>(label: &[u8], bytes: &[u8]) -> Result<T, Left>
    ensures { ReadsTail (labelled label.now T.token finish) (λ v. part (T.text v) none) bytes.now result }
{
    let mut line = Cursor::new(bytes);
    let value: T = field(&mut line, label)?;
    end(&line)?;
    Ok(value)
}

/// The value that a word stands for, read to the end of the line.
pub(crate) fn spelled<T: Copy>(text: &[u8], value: T, bytes: &[u8]) -> Result<T, Left>
    ensures value { IfOk result (λ found. found ≡ value) }
    ensures text { ReadsTail (word text.now finish) (λ _. none) bytes.now result }
{
    let rest = line_grammar::word(text, bytes)?;
    line_grammar::end(rest)?;
    Ok(value)
}

/// Reads a whole line by its rows. An error is the column of the byte at which it leaves them.
pub(crate) fn whole<V: Rows>(bytes: &[u8]) -> Result<V, usize>
    requires sound { is_sound (V.rows finish) ≡ true }
    ensures { ReadsWhole V.rows V.lawful V.parts bytes.now result }
{
    match V::read(bytes) {
        Ok(says) => Ok(says),
        Err(left) => Err(column(bytes, left)),
    }
}
