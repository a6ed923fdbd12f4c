//! Reading the whole list of a call, and why a list is none.
ghost use Rattle.std.specs.Prelude.{◌≡◌, ℕ, ◌≤◌, List, ◌∷◌, ◌++◌, length, MatchResult, IsTrue, ◌↔◌, Err};
ghost use Rattle.call_values.specs.Calls.{IsCall};
ghost use Rattle.call_grammar.specs.Spelling.{up_to_end};
ghost use Rattle.dsc_symbols.specs.Formats.{IsFormat};
ghost use Rattle.call_grammar.specs.Reading.{IsReading, IsTwice, Shows, Misses};

use crate::forms::checked_characters;
use crate::spelling::end_of;
use call_values::Call;
use cursor::Cursor;
use dsc_symbols::sets::is_format;
use symbol_reader::{ReadRefusal, Stop, check};

/// Reads the call whose list is a prefix of the given one, and answers it with that list's length.
pub fn read(list: &[u8]) -> Result<(Call, usize), ReadRefusal>
    ensures { IsReading list.now result }
{
    heading(list)?;
    let mut cursor = Cursor::new(&list[1..]);
    match checked_characters(&mut cursor) {
        Ok(call) => ending(list, list.len() - cursor.rest().len(), call),
        Err(Stop::Short) => Err(ReadRefusal::Short(list.len() as u8)),
        Err(Stop::Outside) => {
            let n = list.len() - cursor.rest().len();
            Err(ReadRefusal::Outside(n as u8, list[n]))
        }
    }
}

/// Whether the list begins with a format specifier twice.
fn heading(list: &[u8]) -> Result<(), ReadRefusal>
    ensures { MatchResult result (λ _. IsTwice list.now) (λ refusal. IsReading list.now (Err refusal)) }
{
    match list {
        [] => Err(ReadRefusal::Short(0)),
        [first, ..] if !is_format(*first) => Err(ReadRefusal::Outside(0, *first)),
        [_] => Err(ReadRefusal::Short(1)),
        [first, second, ..] if first != second => Err(ReadRefusal::Outside(1, *second)),
        _ => Ok(()),
    }
}

/// Reads the error check character, at this place, and the last two ends of sequence.
fn ending(list: &[u8], place: usize, call: Call) -> Result<(Call, usize), ReadRefusal>
    requires lawful { IsCall call }
    requires place { place ≡ length (up_to_end call) }
    requires front { (rest : List ℕ) × (list.now ≡ up_to_end call ++ rest) }
    ensures { IsReading list.now result }
{
    let n = place as u8;
    let want = check(&list[1..place]);
    match list.get(place) {
        None => return Err(ReadRefusal::Short(n)),
        Some(got) if *got != want => return Err(ReadRefusal::Check { n, want, got: *got }),
        Some(_) => {}
    }
    let end = end_of(&call);
    expect(list, n + 1, end)?;
    expect(list, n + 2, end)?;
    Ok((call, place + 3))
}

/// Reads one symbol, at this place, that can be no other than this one.
fn expect(list: &[u8], place: u8, symbol: u8) -> Result<(), ReadRefusal>
    ensures { MatchResult result (λ _. Shows list.now place symbol) (λ refusal. Misses list.now place symbol refusal) }
{
    match list.get(place as usize) {
        None => Err(ReadRefusal::Short(place)),
        Some(got) if *got != symbol => Err(ReadRefusal::Outside(place, *got)),
        Some(_) => Ok(()),
    }
}
