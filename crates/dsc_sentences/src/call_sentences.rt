//! The sentences of a call and of its expansion.
ghost use Rattle.std.specs.Prelude.{◌≡◌};
ghost use Rattle.dsc_sentences.specs.CallSentences.{sentences_of};

use crate::call_printing::print_call;
use crate::dse_printing::print_dse;
use crate::expansions::of_expansion;
use arrayvec::ArrayVec;
use call_values::Call;
use expansion::Expansion;
use line_grammar::append;

/// The DSC sentence of a call, and after it the DSE sentence of the expansion that follows the call, where one does.
/// Each ends with CR and LF.
#[tactic(auto, unfolding(crate::specs::CallSentences::sentences_of))]
pub fn put_sentences(call: &Call, expansion: &Option<Expansion>) -> ArrayVec<u8, 164>
    ensures { result.items ≡ sentences_of call.now expansion.now }
{
    let mut out = ArrayVec::new();
    match expansion {
        None => append(&mut out, print_call(call, false).as_slice()),
        Some(expansion) => {
            append(&mut out, print_call(call, true).as_slice());
            let sentence = of_expansion(call.sender(), expansion);
            append(&mut out, print_dse(&sentence).as_slice());
        }
    }
    out
}
