//! DSE sentences by their fields.
ghost use Rattle.std.specs.Prelude.{◌≡◌};
ghost use Rattle.expansion.specs.Expansions.{IsExpansion};
ghost use Rattle.sentence_frame.specs.Texts.{IsDigits};

use expansion::Expansion;
use std::marker::Model;

/// The flag of a DSE sentence.
#[derive(Clone, Copy, Debug, PartialEq, Eq)]
pub enum Flag {
    A,
    Q,
    R,
}

/// The fields of a DSE sentence, whatever they say (this project's profile).
#[derive(Clone, Copy, Debug, PartialEq, Eq)]
pub struct DseFields {
    pub flag: Flag,
    /// The sender of the call that the expansion follows: nine digits and a 0.
    pub address: [u8; 10],
    pub expansion: Expansion,
}

/// A DSE sentence. It is the sentence of an expansion, or one that was read.
#[derive(Clone, Copy, Debug, PartialEq, Eq)]
pub struct DseSentence {
    pub(crate) fields: DseFields,
}

impl Model for DseSentence {
    ghost use Rattle.dsc_sentences.specs.declared.dse.DseFields.{DseFields};
    ghost use Rattle.dsc_sentences.specs.Dse.{IsDse};

    ghost Value = { DseFields };

    ghost view = { λ sentence. sentence.fields };

    ghost invariant = { λ sentence. IsDse sentence.fields };

    ghost inverse = { λ fields. record { fields = fields } };
}

impl DseSentence {
    /// The flag: A of an expansion that this station sends.
    pub fn flag(&self) -> Flag
        ensures { result ≡ self.now.flag }
    {
        self.fields.flag
    }

    /// The ten digits of the sender.
    pub fn address(&self) -> [u8; 10]
        ensures { result ≡ self.now.address }
    {
        self.fields.address
    }

    /// The expansion.
    pub fn expansion(&self) -> Expansion
        ensures { result ≡ self.now.expansion }
    {
        self.fields.expansion
    }
}
