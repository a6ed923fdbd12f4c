//! Reading one symbol by the letter of its place, and why reading stops.
ghost use Rattle.std.specs.Prelude.{◌≡◌, ◌↔◌, IfOk, IsTrue, []};
ghost use Rattle.symbol_reader.specs.Letters.{Allows};
ghost use Rattle.symbol_reader.specs.inside.Languages.{One};
ghost use Rattle.symbol_reader.specs.inside.Reading.{Reads};

use crate::letters::Letter;
use cursor::Cursor;

/// Why reading stopped before the end of a word.
#[derive(Clone, Copy, Debug, PartialEq, Eq)]
pub enum Stop {
    /// The list ended inside a word.
    Short,
    /// The next symbol can't be there.
    Outside,
}

/// Takes the next symbol where the letter allows it, and else leaves it. It is inlined, since the letter is a constant of
/// its caller.
#[inline(always)]
pub fn symbol(cursor: &mut Cursor, letter: Letter) -> Result<u8, Stop>
    ensures reads { Reads (One (Allows letter)) cursor.old result cursor.new }
    ensures allowed { IfOk result (λ symbol. Allows letter symbol) }
{
    let Some((first, rest)) = cursor.rest().split_first() else {
        return Err(Stop::Short);
    };
    let symbol = *first;
    if !letter.allows(symbol) {
        return Err(Stop::Outside);
    }
    cursor.go_on(rest);
    Ok(symbol)
}
