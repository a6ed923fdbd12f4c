//! Taking the fields of a DSC sentence one after another. Where a field has as many digits as it mostly has, they are
//! judged and read without a look for the next comma; any other text is cut at its comma first.
ghost use Rattle.std.specs.Prelude.{◌≡◌, ◌≤◌, true, MatchOption};
ghost use Rattle.sentence_frame.specs.Shapes as shape;
ghost use Rattle.sentence_frame.specs.Shapes.{digits_of, number_of};
ghost use Rattle.sentence_frame.specs.inside.Fields.{field, first_of, perhaps, rest_of};

use crate::fields::{perhaps_four_digits, perhaps_two_digits};
use arrayvec::ArrayVec;
use cursor::Cursor;
use line_grammar::append;
use sentence_frame::{
    SentenceRefusal, code, digits, digits_up_to, next_digits, next_text, perhaps_code,
    perhaps_digits,
};

/// Takes the next field where it is two digits, and gives their number; else it takes nothing.
#[inline(always)]
fn take_two(fields: &mut Cursor) -> Option<u8>
    ensures { MatchOption result (fields.new ≡ fields.old)
        (λ n. (shape.are_digits 2 (first_of fields.old) ≡ true) × (n ≡ number_of (first_of fields.old)) × (n ≤ 99)
        × (fields.new ≡ rest_of fields.old)) }
{
    let [tens, ones] = next_digits::<2>(fields)?;
    Some(10 * tens + ones)
}

/// Takes the next field where it is four digits, and gives their number; else it takes nothing.
#[inline(always)]
fn take_four(fields: &mut Cursor) -> Option<u16>
    ensures { MatchOption result (fields.new ≡ fields.old)
        (λ n. (shape.are_digits 4 (first_of fields.old) ≡ true) × (n ≡ number_of (first_of fields.old)) × (n ≤ 9999)
        × (fields.new ≡ rest_of fields.old)) }
{
    let [a, b, c, d] = next_digits::<4>(fields)?;
    Some(1000 * u16::from(a) + 100 * u16::from(b) + 10 * u16::from(c) + u16::from(d))
}

/// Takes field k, where it is two digits that make one of these numbers.
#[inline(always)]
pub fn take_code(k: usize, numbers: &[u8], fields: &mut Cursor) -> Result<u8, SentenceRefusal>
    ensures value { result ≡ field k (shape.code numbers.now) number_of (first_of fields.old) }
    ensures rest { fields.new ≡ rest_of fields.old }
{
    match take_two(fields) {
        Some(number) => {
            if numbers.contains(&number) {
                Ok(number)
            } else {
                Err(SentenceRefusal::Field(k))
            }
        }
        None => code(k, numbers, next_text(fields)),
    }
}

/// The same, where the field may be empty.
#[inline(always)]
pub fn take_perhaps_code(
    k: usize,
    numbers: &[u8],
    fields: &mut Cursor,
) -> Result<Option<u8>, SentenceRefusal>
    ensures value { result ≡ field k (shape.maybe (shape.code numbers.now)) (perhaps number_of) (first_of fields.old) }
    ensures rest { fields.new ≡ rest_of fields.old }
{
    match take_two(fields) {
        Some(number) => {
            if numbers.contains(&number) {
                Ok(Some(number))
            } else {
                Err(SentenceRefusal::Field(k))
            }
        }
        None => perhaps_code(k, numbers, next_text(fields)),
    }
}

/// Takes field k, where it is two digits or empty.
#[inline(always)]
pub fn take_perhaps_two(k: usize, fields: &mut Cursor) -> Result<Option<u8>, SentenceRefusal>
    ensures value { result ≡ field k (shape.maybe (shape.number 2 99)) (perhaps number_of) (first_of fields.old) }
    ensures rest { fields.new ≡ rest_of fields.old }
{
    match take_two(fields) {
        Some(number) => Ok(Some(number)),
        None => perhaps_two_digits(k, next_text(fields)),
    }
}

/// Takes field k, where it is four digits or empty.
#[inline(always)]
pub fn take_perhaps_four(k: usize, fields: &mut Cursor) -> Result<Option<u16>, SentenceRefusal>
    ensures value { result ≡ field k (shape.maybe (shape.number 4 9999)) (perhaps number_of) (first_of fields.old) }
    ensures rest { fields.new ≡ rest_of fields.old }
{
    match take_four(fields) {
        Some(number) => Ok(Some(number)),
        None => perhaps_four_digits(k, next_text(fields)),
    }
}

/// Takes field k, where it is ten digits.
#[inline(always)]
pub fn take_ten(k: usize, fields: &mut Cursor) -> Result<[u8; 10], SentenceRefusal>
    ensures value { result ≡ field k (shape.digits 10) digits_of (first_of fields.old) }
    ensures rest { fields.new ≡ rest_of fields.old }
{
    match next_digits(fields) {
        Some(values) => Ok(values),
        None => digits(k, next_text(fields)),
    }
}

/// The same, where the field may be empty.
#[inline(always)]
pub fn take_perhaps_ten(k: usize, fields: &mut Cursor) -> Result<Option<[u8; 10]>, SentenceRefusal>
    ensures value { result ≡ field k (shape.maybe (shape.digits 10)) (perhaps digits_of) (first_of fields.old) }
    ensures rest { fields.new ≡ rest_of fields.old }
{
    match next_digits(fields) {
        Some(values) => Ok(Some(values)),
        None => perhaps_digits(k, next_text(fields)),
    }
}

/// Takes field k, where it is at most 16 digits. A position has ten.
#[inline(always)]
pub fn take_place(k: usize, fields: &mut Cursor) -> Result<ArrayVec<u8, 16>, SentenceRefusal>
    ensures value { result ≡ field k (shape.at_most 16) (λ t. record { items = digits_of t }) (first_of fields.old) }
    ensures rest { fields.new ≡ rest_of fields.old }
{
    match next_digits::<10>(fields) {
        Some(values) => {
            let mut place = ArrayVec::new();
            append(&mut place, &values);
            Ok(place)
        }
        None => digits_up_to(k, next_text(fields)),
    }
}
