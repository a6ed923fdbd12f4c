//! Reading a DSC sentence.
ghost use Rattle.std.specs.Prelude.{◌≡◌};
ghost use Rattle.dsc_sentences.specs.Dsc.{IsReading};
ghost use Rattle.dsc_sentences.specs.inside.DscReading as inside;

use crate::dsc::{DscFields, DscSentence};
use crate::fields::end;
use crate::taking::{
    take_code, take_perhaps_code, take_perhaps_four, take_perhaps_ten, take_perhaps_two,
    take_place, take_ten,
};
use cursor::Cursor;
use dsc_symbols::last_digits::{CATEGORIES, FORMATS};
use sentence_frame::{SentenceRefusal, fields_of, next_text, perhaps_letter};

/// Reads the fields of a DSC sentence.
#[inline(always)]
#[tactic(auto, unfolding(crate::specs::inside::DscReading::read_fields, sentence_frame::specs::inside::Fields::and_then))]
fn read_fields(fields: &mut Cursor) -> Result<DscFields, SentenceRefusal>
    ensures { result ≡ inside.read_fields fields.old }
{
    let format = take_code(1, &FORMATS, fields)?;
    let address = take_ten(2, fields)?;
    let category = take_perhaps_code(3, &CATEGORIES, fields)?;
    let first = take_perhaps_two(4, fields)?;
    let second = take_perhaps_two(5, fields)?;
    let place = take_place(6, fields)?;
    let time = take_perhaps_four(7, fields)?;
    let distress = take_perhaps_ten(8, fields)?;
    let nature = take_perhaps_two(9, fields)?;
    let end = end(10, next_text(fields))?;
    let expanded = perhaps_letter(11, b'E', next_text(fields))?;
    Ok(DscFields {
        format,
        address,
        category,
        first,
        second,
        place,
        time,
        distress,
        nature,
        end,
        expanded,
    })
}

/// The fields of the DSC sentence whose bytes these are; else the first refusal.
#[inline(always)]
pub(crate) fn fields_read(bytes: &[u8]) -> Result<DscFields, SentenceRefusal>
    ensures { inside.FieldsAnswer result bytes.now }
{
    let mut fields = fields_of(b"$CDDSC", &[11], bytes)?;
    read_fields(&mut fields)
}

/// The DSC sentence whose bytes these are; else the first refusal.
pub fn read(bytes: &[u8]) -> Result<DscSentence, SentenceRefusal>
    ensures { IsReading bytes.now result }
{
    let fields = fields_read(bytes)?;
    Ok(DscSentence { fields })
}
