//! The list of an expansion, as it is sent.
ghost use Rattle.std.specs.Prelude.{◌≡◌, ◌+◌, ◌≤◌, ◌++◌, ◌∷◌, [], length};
ghost use Rattle.call_values.specs.Ends.{end_symbol};
ghost use Rattle.expansion.specs.declared.specifiers.TheConstants as specifiers;
ghost use Rattle.symbol_reader.specs.Digits as digits;
ghost use Rattle.expansion.specs.Parts.{IsUpTo};
ghost use Rattle.expansion.specs.Spelling as sequence;

use crate::bounds::{LAST_ENHANCEMENT, LAST_SPEED};
use crate::parts::{Part, PartKind};
use crate::specifiers::{COURSE, ENHANCED_POSITION, SPEED};
use crate::values::Expansion;
use arrayvec::ArrayVec;
use call_values::End;
use dsc_symbols::messages::NO_INFORMATION;
use symbol_reader::{check, eight_digits, four_digits};

/// An expansion's list with this end of sequence: its sets, the end of sequence, the error check character, and the end
/// of sequence twice more, at most 15 symbols (this project's profile).
pub fn spell_sets(x: &Expansion, end: End) -> ArrayVec<u8, 16>
    ensures list { result.items ≡ sequence.spell x.now end }
    ensures short { length result.items ≤ 15 }
{
    let last = end.symbol();
    let mut list = covered(x, end);
    let check = check(list.as_slice());
    append(&mut list, &[check, last, last]);
    list
}

/// What the check of an expansion covers: its sets and one end of sequence.
fn covered(x: &Expansion, end: End) -> ArrayVec<u8, 16>
    ensures list { result.items ≡ sequence.covered x.now end }
    ensures short { length result.items ≤ 12 }
{
    let mut list = ArrayVec::new();
    append_position(&mut list, &x.enhanced());
    append_digits(&mut list, SPEED, &x.speed());
    append_digits(&mut list, COURSE, &x.course());
    append(&mut list, &[end.symbol()]);
    list
}

/// Appends the set of an enhanced position, where there is one.
fn append_position(list: &mut ArrayVec<u8, 16>, part: &Part)
    requires room { length list.old.items ≤ 11 }
    requires range { IsUpTo LAST_ENHANCEMENT part.now }
    ensures list { list.new.items ≡ list.old.items
        ++ sequence.set_symbols specifiers.ENHANCED_POSITION digits.eight_digits part.now }
    ensures short { length list.new.items ≤ length list.old.items + 5 }
{
    match part.kind() {
        PartKind::LeftOut => {}
        PartKind::NoInformation => append(list, &[ENHANCED_POSITION, NO_INFORMATION]),
        PartKind::Digits(number) => {
            append(list, &[ENHANCED_POSITION]);
            append(list, &eight_digits(number));
        }
    }
}

/// Appends a set of four digits, where there is one.
fn append_digits(list: &mut ArrayVec<u8, 16>, specifier: u8, part: &Part)
    requires room { length list.old.items ≤ 8 }
    requires range { IsUpTo LAST_SPEED part.now }
    ensures list { list.new.items ≡ list.old.items ++ sequence.set_symbols specifier digits.four_digits part.now }
    ensures short { length list.new.items ≤ length list.old.items + 3 }
{
    match part.kind() {
        PartKind::LeftOut => {}
        PartKind::NoInformation => append(list, &[specifier, NO_INFORMATION]),
        PartKind::Digits(number) => {
            append(list, &[specifier]);
            append(list, &four_digits(number));
        }
    }
}

/// Appends symbols for which there is room.
fn append(list: &mut ArrayVec<u8, 16>, symbols: &[u8])
    requires { length list.old.items + length symbols.now ≤ 16 }
    ensures { list.new.items ≡ list.old.items ++ symbols.now }
{
    list.try_extend_from_slice(symbols).unwrap();
}
