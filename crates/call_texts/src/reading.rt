//! Reading the text of a call whole.
ghost use Rattle.std.specs.Prelude.{◌≡◌, ◌≤◌, IfErr};
ghost use Rattle.line_grammar.specs.Columns.{ReadsAs};
ghost use Rattle.call_texts.specs.Texts.{IsBareCallText, IsCallText, IsWholeOrAbsent, extra_of as follows};

use crate::forms::any_call;
use call_values::Call;
use expansion::Expansion;
use line_grammar::column;
use slot_join::Extra;

/// What an answer says after a call that was sent with this expansion after it, or with none.
pub fn extra_of(expansion: Option<Expansion>) -> Extra
    ensures is { result ≡ follows expansion }
    ensures lawful { IsWholeOrAbsent result }
{
    match expansion {
        None => Extra::Absent,
        Some(sets) => {
            sets.lawful();
            Extra::Whole(sets)
        }
    }
}

/// The law that the sets of an expansion are in their ranges.
pub fn sets_are_lawful(expansion: &Option<Expansion>)
    ensures { IsWholeOrAbsent (follows expansion.now) }
{
    if let Some(sets) = expansion {
        sets.lawful();
    }
}

/// The call whose text this is (ITU-R M.493, composition of the calls), and the expansion that follows it, if one does.
/// An error is the column: the least n for which the first n bytes begin no call's text with or without an expansion,
/// and the length plus one where the text ends too early.
pub fn read_call(text: &[u8]) -> Result<(Call, Option<Expansion>), usize>
    ensures read { ReadsAs IsCallText text.now result }
    ensures counted { IfErr result (λ n. 1 ≤ n) }
{
    match any_call::<Option<Expansion>>(text) {
        Ok((call, expansion)) => {
            call.lawful();
            sets_are_lawful(&expansion);
            Ok((call, expansion))
        }
        Err(left) => Err(column(text, left)),
    }
}

/// The same where no expansion may follow.
pub fn read_bare_call(text: &[u8]) -> Result<Call, usize>
    ensures { ReadsAs IsBareCallText text.now result }
{
    match any_call::<()>(text) {
        Ok((call, _nothing)) => {
            call.lawful();
            Ok(call)
        }
        Err(left) => Err(column(text, left)),
    }
}
