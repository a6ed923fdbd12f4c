//! DSC sentences by their fields.
ghost use Rattle.std.specs.Prelude.{◌≡◌, ◌≤◌, IfSome, true};
ghost use Rattle.sentence_frame.specs.Shapes.{is_among};
ghost use Rattle.sentence_frame.specs.Texts.{IsDigits, IsUpToDigits};
ghost use Rattle.dsc_sentences.specs.Dsc.{IsDsc};

use arrayvec::ArrayVec;
use call_values::End;
use std::marker::Model;

/// The fields of a DSC sentence, whatever they say (this project's profile). Symbols from 100 on are given by their
/// last two digits, and lists of digits by the digits' values.
#[derive(Debug, PartialEq, Eq, Drop)]
pub struct DscFields {
    /// The format specifier.
    pub format: u8,
    /// The area that the call is for, else its sender: nine digits and a 0.
    pub address: [u8; 10],
    pub category: Option<u8>,
    /// The nature of distress of an alert, else the first telecommand.
    pub first: Option<u8>,
    /// What is to follow a distress call, else the second telecommand.
    pub second: Option<u8>,
    /// The digits of a position, or of frequencies or channels.
    pub place: ArrayVec<u8, 16>,
    /// Hour and minute in four digits.
    pub time: Option<u16>,
    /// The ship in distress: nine digits and a 0.
    pub distress: Option<[u8; 10]>,
    /// Its nature of distress.
    pub nature: Option<u8>,
    pub end: End,
    /// Whether an expansion follows.
    pub expanded: bool,
}

/// A DSC sentence. It is the sentence of a call, or one that was read.
#[derive(Debug, PartialEq, Eq, Drop)]
pub struct DscSentence {
    pub(crate) fields: DscFields,
}

impl Model for DscSentence {
    ghost use Rattle.dsc_sentences.specs.declared.dsc.DscFields.{DscFields};
    ghost use Rattle.dsc_sentences.specs.Dsc.{IsDsc};

    ghost Value = { DscFields };

    ghost view = { λ sentence. sentence.fields };

    ghost invariant = { λ sentence. IsDsc sentence.fields };

    ghost inverse = { λ fields. record { fields = fields } };
}

impl DscSentence {
    /// All fields, whose values are lawful ones of a DSC sentence.
    pub fn fields(&self) -> &DscFields
        ensures value { result.now ≡ self.now }
        ensures lawful { IsDsc self.now }
    {
        &self.fields
    }

    /// The format specifier's last two digits: 12, 16, 14, 20 or 2.
    pub fn format(&self) -> u8
        ensures { result ≡ self.now.format }
    {
        self.fields.format
    }

    /// The ten digits of the area that the call is for, else those of its sender.
    pub fn address(&self) -> [u8; 10]
        ensures { result ≡ self.now.address }
    {
        self.fields.address
    }

    /// The category's last two digits.
    pub fn category(&self) -> Option<u8>
        ensures { result ≡ self.now.category }
    {
        self.fields.category
    }

    /// The last two digits of an alert's nature of distress, else of the first telecommand.
    pub fn first(&self) -> Option<u8>
        ensures { result ≡ self.now.first }
    {
        self.fields.first
    }

    /// The last two digits of what is to follow a distress call, else of the second telecommand.
    pub fn second(&self) -> Option<u8>
        ensures { result ≡ self.now.second }
    {
        self.fields.second
    }

    /// The digits of a position, or of frequencies or channels, at most 16.
    pub fn place(&self) -> &[u8]
        ensures { result.now ≡ self.now.place.items }
    {
        self.fields.place.as_slice()
    }

    /// Hour and minute in four digits.
    pub fn time(&self) -> Option<u16>
        ensures { result ≡ self.now.time }
    {
        self.fields.time
    }

    /// The ten digits of the ship in distress, where it is another one than the sender.
    pub fn distress(&self) -> Option<[u8; 10]>
        ensures { result ≡ self.now.distress }
    {
        self.fields.distress
    }

    /// The last two digits of that ship's nature of distress.
    pub fn nature(&self) -> Option<u8>
        ensures { result ≡ self.now.nature }
    {
        self.fields.nature
    }

    /// The end of sequence.
    pub fn end(&self) -> End
        ensures { result ≡ self.now.end }
    {
        self.fields.end
    }

    /// Whether an expansion follows.
    pub fn expanded(&self) -> bool
        ensures { result ≡ self.now.expanded }
    {
        self.fields.expanded
    }
}
