//! The values of the fields of a sentence.
ghost use Rattle.std.specs.Prelude.{[], ◌∷◌, not, ◌≡◌, ◌-◌, ◌≤◌, ◌<◌, ◌^◌, true, IsTrue, IfOk, IfSome, MatchOption, length, map, slice_index};
ghost use Rattle.std.specs.List.{list_all};
ghost use Rattle.line_grammar.specs.Tokens.{is_digit};
ghost use Rattle.sentence_frame.specs.Shapes as shape;
ghost use Rattle.sentence_frame.specs.Shapes.{number_of, digits_of};
ghost use Rattle.sentence_frame.specs.inside.Fields.{field, perhaps, first_of, rest_of, ends_at};

use crate::SentenceRefusal;
use arrayvec::ArrayVec;
use cursor::Cursor;

/// Whether all bytes are decimal digits. None ends the loop, which unrolls where the number of bytes is a constant.
fn all_digits(text: &[u8]) -> bool
    ensures { result ≡ list_all is_digit text.now }
{
    let mut all = true;
    for byte in text {
        all &= byte.is_ascii_digit();
    }
    all
}

/// Whether a text is so many decimal digits.
fn are_digits(width: usize, text: &[u8]) -> bool
    ensures { result ≡ shape.are_digits width text.now }
{
    text.len() == width && all_digits(text)
}

/// Whether there is nothing.
fn is_nothing(text: &[u8]) -> bool
    ensures { result ≡ shape.is_nothing text.now }
{
    match text.split_first() {
        None => true,
        Some(_) => false,
    }
}

/// Whether a number is one of these.
fn is_among(numbers: &[u8], number: u8) -> bool
    ensures { result ≡ shape.is_among numbers.now number }
{
    numbers.contains(&number)
}

/// The number that digits make.
fn number_of(text: &[u8]) -> u32
    requires digits { IsTrue (list_all is_digit text.now) }
    requires short { length text.now ≤ 8 }
    ensures value { result ≡ number_of text.now }
    ensures range { result < 10 ^ length text.now }
{
    let mut number = 0;
    for byte in text {
        number = 10 * number + u32::from(*byte - b'0');
    }
    number
}

/// Field k, where its text is so many digits, at most eight, that make a number up to the most.
#[tactic(auto, unfolding(crate::specs::inside::Fields::field, crate::specs::Shapes::accepts))]
pub fn number(k: usize, width: usize, most: u32, text: &[u8]) -> Result<u32, SentenceRefusal>
    requires { width ≤ 8 }
    ensures value { result ≡ field k (shape.number width most) number_of text.now }
    ensures range { IfOk result (λ n. n ≤ most) }
{
    if !are_digits(width, text) {
        return Err(SentenceRefusal::Field(k));
    }
    let number = number_of(text);
    if number <= most {
        Ok(number)
    } else {
        Err(SentenceRefusal::Field(k))
    }
}

/// The same, where the field may be empty.
#[tactic(auto, unfolding(crate::specs::inside::Fields::field, crate::specs::Shapes::accepts))]
pub fn perhaps_number(
    k: usize,
    width: usize,
    most: u32,
    text: &[u8],
) -> Result<Option<u32>, SentenceRefusal>
    requires { width ≤ 8 }
    ensures value { result ≡ field k (shape.maybe (shape.number width most)) (perhaps number_of) text.now }
    ensures range { IfOk result (λ o. IfSome o (λ n. n ≤ most)) }
{
    if is_nothing(text) {
        return Ok(None);
    }
    let number = number(k, width, most, text)?;
    Ok(Some(number))
}

/// Field k, where its text is two digits that make one of these numbers.
#[tactic(auto, unfolding(crate::specs::inside::Fields::field, crate::specs::Shapes::accepts))]
pub fn code(k: usize, numbers: &[u8], text: &[u8]) -> Result<u8, SentenceRefusal>
    ensures value { result ≡ field k (shape.code numbers.now) number_of text.now }
{
    if !are_digits(2, text) {
        return Err(SentenceRefusal::Field(k));
    }
    let number = number_of(text) as u8;
    if is_among(numbers, number) {
        Ok(number)
    } else {
        Err(SentenceRefusal::Field(k))
    }
}

/// The same, where the field may be empty.
#[tactic(auto, unfolding(crate::specs::inside::Fields::field, crate::specs::Shapes::accepts))]
pub fn perhaps_code(k: usize, numbers: &[u8], text: &[u8]) -> Result<Option<u8>, SentenceRefusal>
    ensures value { result ≡ field k (shape.maybe (shape.code numbers.now)) (perhaps number_of) text.now }
{
    if is_nothing(text) {
        return Ok(None);
    }
    let number = code(k, numbers, text)?;
    Ok(Some(number))
}

/// The digits of a text.
fn digit_values<const N: usize>(text: &[u8]) -> [u8; N]
    requires digits { IsTrue (shape.are_digits N text.now) }
    ensures { result ≡ digits_of text.now }
{
    let mut digits = [0; N];
    for (n, byte) in text.iter().enumerate() {
        digits[n] = *byte - b'0';
    }
    digits
}

/// Whether a text of so many bytes may end there: no byte follows, or a comma.
fn may_end(width: usize, bytes: &[u8]) -> bool
    ensures { IsTrue result → ends_at width bytes.now }
{
    match bytes.get(width) {
        Some(byte) => *byte == b',',
        None => bytes.len() == width,
    }
}

/// Takes the text of the next field where it is N digits, and gives their values; else it takes nothing. It looks for
/// no comma, since digits are none.
#[inline(always)]
pub fn next_digits<const N: usize>(fields: &mut Cursor<'_>) -> Option<[u8; N]>
    ensures { MatchOption result (fields.new ≡ fields.old)
        (λ digits. (shape.are_digits N (first_of fields.old) ≡ true) × (digits ≡ digits_of (first_of fields.old))
        × (fields.new ≡ rest_of fields.old)) }
{
    let (_, behind) = fields.rest().split_first()?;
    if !may_end(N, behind) {
        return None;
    }
    let text = &behind[..N];
    if !all_digits(text) {
        return None;
    }
    fields.go_on(&behind[N..]);
    Some(digit_values(text))
}

/// Field k, where its text is N digits.
#[tactic(auto, unfolding(crate::specs::inside::Fields::field, crate::specs::Shapes::accepts))]
pub fn digits<const N: usize>(k: usize, text: &[u8]) -> Result<[u8; N], SentenceRefusal>
    ensures { result ≡ field k (shape.digits N) digits_of text.now }
{
    if are_digits(N, text) {
        Ok(digit_values(text))
    } else {
        Err(SentenceRefusal::Field(k))
    }
}

/// The same, where the field may be empty.
#[tactic(auto, unfolding(crate::specs::inside::Fields::field, crate::specs::Shapes::accepts))]
pub fn perhaps_digits<const N: usize>(
    k: usize,
    text: &[u8],
) -> Result<Option<[u8; N]>, SentenceRefusal>
    ensures { result ≡ field k (shape.maybe (shape.digits N)) (perhaps digits_of) text.now }
{
    if is_nothing(text) {
        return Ok(None);
    }
    let digits = digits(k, text)?;
    Ok(Some(digits))
}

/// Field k, where its text is at most N digits.
#[tactic(auto, unfolding(crate::specs::inside::Fields::field, crate::specs::Shapes::accepts))]
pub fn digits_up_to<const N: usize>(
    k: usize,
    text: &[u8],
) -> Result<ArrayVec<u8, N>, SentenceRefusal>
    ensures { result ≡ field k (shape.at_most N) (λ t. record { items = digits_of t }) text.now }
{
    if text.len() > N || !all_digits(text) {
        return Err(SentenceRefusal::Field(k));
    }
    let mut digits = ArrayVec::new();
    for byte in text {
        digits.push(*byte - b'0');
    }
    Ok(digits)
}

/// Field k, where its text is one of these letters.
#[tactic(auto, unfolding(crate::specs::inside::Fields::field, crate::specs::Shapes::accepts))]
pub fn letter(k: usize, letters: &[u8], text: &[u8]) -> Result<u8, SentenceRefusal>
    ensures { result ≡ field k (shape.letter letters.now) (λ t. slice_index t 0) text.now }
{
    if text.len() == 1 && is_among(letters, text[0]) {
        Ok(text[0])
    } else {
        Err(SentenceRefusal::Field(k))
    }
}

/// Whether field k has this letter, where it is this letter or empty.
#[tactic(auto, unfolding(crate::specs::inside::Fields::field, crate::specs::Shapes::accepts))]
pub fn perhaps_letter(k: usize, letter: u8, text: &[u8]) -> Result<bool, SentenceRefusal>
    ensures { result ≡ field k (shape.maybe (shape.letter (letter ∷ []))) (λ t. not (shape.is_nothing t)) text.now }
{
    if is_nothing(text) {
        return Ok(false);
    }
    if text.len() == 1 && text[0] == letter {
        Ok(true)
    } else {
        Err(SentenceRefusal::Field(k))
    }
}
