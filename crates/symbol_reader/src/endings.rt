//! What comes after the first end of sequence: the check, and the end of sequence twice more.
ghost use Rattle.symbol_reader.specs.inside.Reading.{Reads};
ghost use Rattle.symbol_reader.specs.inside.Closings.{Closing};

use crate::letters::Letter;
use crate::reading::{Stop, symbol};
use cursor::Cursor;

/// Reads what follows the first end of sequence: the error check character, which is this one, and the end of sequence
/// twice more (ITU-R M.493, composition of call sequences).
pub fn closing(list: &mut Cursor, check: u8, end: u8) -> Result<(), Stop>
    ensures { Reads (Closing check end) list.old result list.new }
{
    symbol(list, Letter::Exactly(check))?;
    symbol(list, Letter::Exactly(end))?;
    symbol(list, Letter::Exactly(end))?;
    Ok(())
}
