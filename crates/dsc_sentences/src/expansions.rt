//! The DSE sentence of an expansion.
ghost use Rattle.std.specs.Prelude.{◌≡◌};
ghost use Rattle.dsc_sentences.specs.Expansions as rows;

use crate::calls::identity_digits;
use crate::dse::{DseFields, DseSentence, Flag};
use call_values::Mmsi;
use expansion::Expansion;

/// The DSE sentence of an expansion after a call of this sender.
pub fn of_expansion(from: Mmsi, x: &Expansion) -> DseSentence
    ensures { result ≡ rows.of_expansion from x.now }
{
    x.lawful();
    DseSentence {
        fields: DseFields {
            flag: Flag::A,
            address: identity_digits(&from),
            expansion: *x,
        },
    }
}
