//! Taking a sentence apart: its head, its fields and its checksum.
ghost use Rattle.std.specs.Prelude.{IfOk, IfErr, Ok, Err, ◌≡◌, ◌≢◌, ◌+◌, ◌-◌, ◌≤◌, ◌<◌, ◌==◌, ◌&&◌, ◌↔◌, IsTrue, true, length, drop};
ghost use Rattle.std.specs.List.{list_all, count_by};
ghost use Rattle.sentence_frame.specs.Frames as frame;
ghost use Rattle.sentence_frame.specs.Refusals as refusal;
ghost use Rattle.sentence_frame.specs.inside.Fields.{first_of, rest_of, text_length};

use crate::SentenceRefusal;
use cursor::Cursor;

/// The most bytes that a sentence has (IEC 61162-1).
pub const LONGEST_SENTENCE: usize = 82;

/// The fields of a sentence with this head, each after its comma, where there are so many as one of these counts; else
/// the first refusal, up to that of their number.
#[tactic(auto, unfolding(crate::specs::Refusals::opened))]
pub fn fields_of<'a>(
    head: &[u8],
    counts: &[usize],
    bytes: &'a [u8],
) -> Result<Cursor<'a>, SentenceRefusal>
    requires { IsTrue (refusal.is_head head.now) }
    ensures { result ≡ refusal.opened head.now counts.now bytes.now }
{
    match framed(head, bytes) {
        Err(refusal) => Err(refusal),
        Ok(fields) => {
            let count = text_count(fields);
            if counts.contains(&count) {
                Ok(Cursor::new(fields))
            } else {
                Err(SentenceRefusal::FieldCount(count))
            }
        }
    }
}

/// How many texts these fields have, each after its comma.
fn text_count(fields: &[u8]) -> usize
    requires { length fields.now ≤ 82 }
    ensures { result ≡ length (refusal.texts fields.now) }
{
    match fields.split_first() {
        None => 1,
        Some((_, behind)) => commas(behind) + 1,
    }
}

/// How many commas there are. They are counted in a byte and none ends the loop, so that sixteen bytes are looked at at
/// once.
fn commas(bytes: &[u8]) -> usize
    requires { length bytes.now ≤ 82 }
    ensures count { result ≡ count_by (λ b. b == 44) bytes.now }
    ensures most { result ≤ length bytes.now }
{
    let mut count: u8 = 0;
    for byte in bytes {
        if *byte == b',' {
            count += 1;
        }
    }
    usize::from(count)
}

/// The fields, each after its comma, of bytes in the frame of sentences with this head.
#[tactic(auto, unfolding(crate::specs::Refusals::framed))]
fn framed<'a>(head: &[u8], bytes: &'a [u8]) -> Result<&'a [u8], SentenceRefusal>
    requires { IsTrue (refusal.is_head head.now) }
    ensures ok { IfOk result (λ fields. refusal.framed head.now bytes.now ≡ Ok fields.now) }
    ensures short { IfOk result (λ fields. length fields.now ≤ 82) }
    ensures err { IfErr result (λ e. refusal.framed head.now bytes.now ≡ Err e) }
{
    if bytes.len() > LONGEST_SENTENCE {
        return Err(SentenceRefusal::TooLong(bytes.len()));
    }
    if !begins(head, bytes) {
        return Err(SentenceRefusal::Start);
    }
    let (clean, want) = clean_sum(inner(bytes));
    if !is_ended(bytes, clean) {
        return Err(SentenceRefusal::End);
    }
    let got = written(last_five(bytes));
    if want == got {
        Ok(behind(head, bytes))
    } else {
        Err(SentenceRefusal::Checksum { want, got })
    }
}

/// What comes after the head and before the last five bytes.
fn behind<'a>(head: &[u8], bytes: &'a [u8]) -> &'a [u8]
    requires { length head.now < length bytes.now - 5 }
    ensures value { result.now ≡ drop (length head.now) (refusal.body bytes.now) }
    ensures short { length result.now ≤ length bytes.now }
{
    let body = body(bytes);
    &body[head.len()..]
}

/// What comes before the last five bytes.
fn body(bytes: &[u8]) -> &[u8]
    ensures { result.now ≡ refusal.body bytes.now }
{
    &bytes[..bytes.len().saturating_sub(5)]
}

/// The last five bytes.
fn last_five(bytes: &[u8]) -> &[u8]
    ensures { result.now ≡ refusal.last_five bytes.now }
{
    &bytes[bytes.len().saturating_sub(5)..]
}

/// What comes after the first byte and before the last five.
fn inner(bytes: &[u8]) -> &[u8]
    ensures { result.now ≡ refusal.inner bytes.now }
{
    let body = body(bytes);
    &body[body.len().min(1)..]
}

/// Whether bytes end as sentences do, and what comes before is clean, as is known.
fn is_ended(bytes: &[u8], clean: bool) -> bool
    requires { clean ≡ list_all refusal.is_clean (refusal.inner bytes.now) }
    ensures { result ≡ refusal.is_ended bytes.now }
{
    is_ending(last_five(bytes)) && clean
}

/// Whether bytes begin with this head and a comma.
fn begins(head: &[u8], bytes: &[u8]) -> bool
    ensures value { result ≡ refusal.begins head.now bytes.now }
    ensures long { IsTrue result → length head.now < length bytes.now }
{
    bytes.starts_with(head) && matches!(bytes.get(head.len()), Some(b','))
}

/// Whether bytes are `*`, two capital hexadecimal digits, CR and LF.
fn is_ending(bytes: &[u8]) -> bool
    ensures { result ≡ refusal.is_ending bytes.now }
{
    bytes.len() == 5
        && bytes[0] == b'*'
        && is_hexadecimal(bytes[1])
        && is_hexadecimal(bytes[2])
        && bytes[3] == b'\r'
        && bytes[4] == b'\n'
}

/// Whether a byte is a capital hexadecimal digit.
fn is_hexadecimal(byte: u8) -> bool
    ensures { result ≡ refusal.is_hexadecimal byte }
{
    matches!(byte, b'0'..=b'9' | b'A'..=b'F')
}

/// The number that an ending writes.
fn written(ending: &[u8]) -> u8
    requires { IsTrue (refusal.is_ending ending.now) }
    ensures { result ≡ refusal.written ending.now }
{
    16 * hexadecimal_value(ending[1]) + hexadecimal_value(ending[2])
}

/// The value of a capital hexadecimal digit.
fn hexadecimal_value(byte: u8) -> u8
    requires { IsTrue (refusal.is_hexadecimal byte) }
    ensures value { result ≡ refusal.hexadecimal_value byte }
    ensures range { result ≤ 15 }
{
    if byte < b'A' {
        byte - b'0'
    } else {
        byte - b'A' + 10
    }
}

/// Whether a byte may come between the `$` and the `*`.
fn is_clean(byte: u8) -> bool
    ensures { result ≡ refusal.is_clean byte }
{
    (32..=126).contains(&byte) && byte != b'$' && byte != b'*'
}

/// Whether all bytes may come between the `$` and the `*`, and their exclusive or. None ends the loop, so that sixteen
/// are looked at at once.
#[tactic(auto, unfolding(crate::specs::Frames::checksum))]
fn clean_sum(bytes: &[u8]) -> (bool, u8)
    ensures clean { result.0 ≡ list_all refusal.is_clean bytes.now }
    ensures sum { result.1 ≡ frame.checksum bytes.now }
{
    let mut clean = true;
    let mut sum = 0;
    for byte in bytes {
        clean &= is_clean(*byte);
        sum ^= *byte;
    }
    (clean, sum)
}

/// The exclusive or of bytes.
#[tactic(auto, unfolding(crate::specs::Frames::checksum))]
pub fn checksum(bytes: &[u8]) -> u8
    ensures { result ≡ frame.checksum bytes.now }
{
    bytes.iter().fold(0, |sum, byte| sum ^ *byte)
}

/// Takes the text of the next field, which comes after a comma; nothing where there is none.
#[tactic(auto, unfolding(crate::specs::inside::Fields::first_of, crate::specs::inside::Fields::rest_of))]
pub fn next_text<'a>(fields: &mut Cursor<'a>) -> &'a [u8]
    ensures text { result.now ≡ first_of fields.old }
    ensures rest { fields.new ≡ rest_of fields.old }
{
    let Some((_, behind)) = fields.rest().split_first() else {
        return fields.rest();
    };
    let length = text_length(behind);
    fields.go_on(&behind[length..]);
    &behind[..length]
}

/// How many bytes come before the first comma.
fn text_length(bytes: &[u8]) -> usize
    ensures length { result ≡ text_length bytes.now }
    ensures most { result ≤ length bytes.now }
{
    bytes.iter().take_while(|byte| **byte != b',').count()
}
