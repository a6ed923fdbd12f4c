//! What is sent of a call.
ghost use Rattle.std.specs.Prelude.{◌≡◌, ◌<◌, ◌≤◌, ◌++◌, length, All};
ghost use Rattle.call_grammar.specs.Spelling as calls;
ghost use Rattle.time_diversity.specs.OnAir as diversity;
ghost use Rattle.encode_calls.specs.Transmissions.{list_on_air};

use arrayvec::ArrayVec;
use call_grammar::{own_end, spell_into};
use call_values::Call;
use expansion::{Expansion, spell_sets};
use line_grammar::append;
use time_diversity::on_air;

/// Writes the symbols of a call, and of the expansion after it, if one is there, over what the list had.
pub(crate) fn write_list(list: &mut ArrayVec<u8, 64>, call: &Call, expansion: &Option<Expansion>)
    ensures list { list.new.items ≡ list_on_air call.now expansion.now }
    ensures length { (4 ≤ length list.new.items) × (length list.new.items ≤ 64) }
    ensures symbols { All (λ v. v < 128) list.new.items }
{
    call.lawful();
    call_grammar::lists_are_short();
    call_grammar::lists_are_characters();
    expansion::lists_are_short();
    expansion::lists_are_characters();
    list.clear();
    spell_into(list, call);
    if let Some(sets) = expansion {
        sets.lawful();
        append(list, &spell_sets(sets, own_end(call)));
    }
}

/// The symbols of all slots of a call's transmission, and of the expansion after it, if one is there (ITU-R M.493, call
/// sequence and time diversity).
pub fn slots_of(call: &Call, expansion: &Option<Expansion>) -> ArrayVec<u8, 160>
    ensures slots { result.items ≡ diversity.on_air (list_on_air call.now expansion.now) }
    ensures length { length result.items ≤ 140 }
    ensures symbols { All (λ v. v < 128) result.items }
{
    let mut list = ArrayVec::new();
    write_list(&mut list, call, expansion);
    on_air(&list)
}
