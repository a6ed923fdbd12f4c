//! The texts of fields that may be empty, and of the ends of DSC sentences.
ghost use Rattle.std.specs.Prelude.{◌≡◌, ◌≤◌, codes};
ghost use Rattle.sentence_frame.specs.Shapes as shape;
ghost use Rattle.sentence_frame.specs.Shapes.{number_of};
ghost use Rattle.sentence_frame.specs.inside.Fields.{field, perhaps};
ghost use Rattle.dsc_sentences.specs.Dsc as dsc;
ghost use Rattle.dsc_sentences.specs.inside.DscReading.{end_in};

use call_values::End;
use sentence_frame::{SentenceRefusal, letter, perhaps_number};

/// Field k, where it is two digits or empty.
#[tactic(auto, unfolding(sentence_frame::specs::inside::Fields::field))]
pub fn perhaps_two_digits(k: usize, text: &[u8]) -> Result<Option<u8>, SentenceRefusal>
    ensures { result ≡ field k (shape.maybe (shape.number 2 99)) (perhaps number_of) text.now }
{
    match perhaps_number(k, 2, 99, text) {
        Ok(Some(number)) => Ok(Some(number as u8)),
        Ok(None) => Ok(None),
        Err(refusal) => Err(refusal),
    }
}

/// Field k, where it is four digits or empty.
#[tactic(auto, unfolding(sentence_frame::specs::inside::Fields::field))]
pub fn perhaps_four_digits(k: usize, text: &[u8]) -> Result<Option<u16>, SentenceRefusal>
    ensures { result ≡ field k (shape.maybe (shape.number 4 9999)) (perhaps number_of) text.now }
{
    match perhaps_number(k, 4, 9_999, text) {
        Ok(Some(number)) => Ok(Some(number as u16)),
        Ok(None) => Ok(None),
        Err(refusal) => Err(refusal),
    }
}

/// Field k, where it is the letter of an end of sequence.
#[tactic(auto, unfolding(sentence_frame::specs::inside::Fields::field))]
pub fn end(k: usize, text: &[u8]) -> Result<End, SentenceRefusal>
    ensures { result ≡ field k (shape.letter (codes "RBS")) end_in text.now }
{
    match letter(k, b"RBS", text) {
        Ok(b'R') => Ok(End::Ask),
        Ok(b'B') => Ok(End::Reply),
        Ok(_) => Ok(End::Plain),
        Err(refusal) => Err(refusal),
    }
}
