//! Reading the list of an expansion, and why a list is none.
ghost use Rattle.std.specs.Prelude.{◌≡◌, ◌++◌};
ghost use Rattle.expansion.specs.Expansions.{IsExpansion};
ghost use Rattle.expansion.specs.Spelling as sequence;
ghost use Rattle.expansion.specs.Reading.{IsReading, IsCheckedReading};
ghost use Rattle.symbol_reader.specs.declared.refusals.ReadRefusal.TheVariants as ReadRefusal;

use crate::readers::checked_sets;
use crate::values::Expansion;
use call_values::End;
use cursor::Cursor;
use symbol_reader::{ReadRefusal, Stop, check, closing};

/// Reads the expansion whose list with this end of sequence is a prefix of the given one, and answers it with that
/// list's length. Places are counted from the expansion's first symbol.
pub fn read_sets(list: &[u8], end: End) -> Result<(Expansion, usize), ReadRefusal>
    ensures { IsReading end list.now result }
{
    let mut cursor = Cursor::new(list);
    match checked_sets(&mut cursor, end) {
        Ok(expansion) => ending(list, cursor.rest(), expansion, end),
        Err(Stop::Short) => Err(ReadRefusal::Short(list.len() as u8)),
        Err(Stop::Outside) => {
            let n = list.len() - cursor.rest().len();
            Err(ReadRefusal::Outside(n as u8, list[n]))
        }
    }
}

/// Reads the rest of a list after this expansion's first end of sequence: the check and the end of sequence twice more.
fn ending(
    list: &[u8],
    rest: &[u8],
    expansion: Expansion,
    end: End,
) -> Result<(Expansion, usize), ReadRefusal>
    requires lawful { IsExpansion expansion }
    requires list { list.now ≡ sequence.covered expansion end ++ rest.now }
    ensures { IsReading end list.now result }
{
    let place = list.len() - rest.len();
    let want = check(&list[..place]);
    let mut cursor = Cursor::new(rest);
    match closing(&mut cursor, want, end.symbol()) {
        Ok(()) => Ok((expansion, place + 3)),
        Err(Stop::Short) => Err(ReadRefusal::Short(list.len() as u8)),
        Err(Stop::Outside) => {
            let n = list.len() - cursor.rest().len();
            Err(refusal(place, n as u8, want, list[n]))
        }
    }
}

/// Why a list is refused at place n, where its check is at this place.
fn refusal(place: usize, n: u8, want: u8, got: u8) -> ReadRefusal
    ensures at_check { n ≡ place → result ≡ ReadRefusal.Check n want got }
    ensures elsewhere { (n ≡ place → ⊥) → result ≡ ReadRefusal.Outside n got }
{
    if usize::from(n) == place {
        ReadRefusal::Check { n, want, got }
    } else {
        ReadRefusal::Outside(n, got)
    }
}

/// Reads the expansion whose list with this end of sequence, up to its check, begins the given one: what comes after
/// the check isn't looked at. An error is the first place, counted from the expansion's first symbol, at which no
/// expansion's list goes on, which is the length of the given list where that ends too early.
pub fn read_checked(list: &[u8], end: End) -> Result<Expansion, usize>
    ensures { IsCheckedReading end list.now result }
{
    let mut cursor = Cursor::new(list);
    match checked_sets(&mut cursor, end) {
        Ok(expansion) => behind_end(list, cursor.rest(), expansion, end),
        Err(_) => Err(list.len() - cursor.rest().len()),
    }
}

/// Compares the symbol after this expansion's end of sequence with its check.
fn behind_end(list: &[u8], rest: &[u8], expansion: Expansion, end: End) -> Result<Expansion, usize>
    requires lawful { IsExpansion expansion }
    requires list { list.now ≡ sequence.covered expansion end ++ rest.now }
    ensures { IsCheckedReading end list.now result }
{
    let place = list.len() - rest.len();
    let want = check(&list[..place]);
    let Some((symbol, _)) = rest.split_first() else {
        return Err(place);
    };
    if *symbol == want {
        Ok(expansion)
    } else {
        Err(place)
    }
}
