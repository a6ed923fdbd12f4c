//! Writing a sentence: its head, its fields and its checksum.
ghost use Rattle.std.specs.Prelude.{◌≡◌, ◌+◌, ◌<◌, ◌≤◌, ◌++◌, ◌∷◌, IsTrue, IfSome, length};
ghost use Rattle.arrayvec.specs.ArrayVec.{array_vec_len};
ghost use Rattle.line_grammar.specs.Bytes.{comma};
ghost use Rattle.sentence_frame.specs.Frames as frame;
ghost use Rattle.sentence_frame.specs.Refusals as refusal;
ghost use Rattle.sentence_frame.specs.Texts.{AreDigits, digits, digit_text, perhaps_text};

use crate::frames::{LONGEST_SENTENCE, checksum};
use arrayvec::ArrayVec;
use line_grammar::{append, append_digits};

/// A sentence that begins with this head.
pub fn begin_sentence(head: &[u8]) -> ArrayVec<u8, LONGEST_SENTENCE>
    requires { length head.now ≤ 82 }
    ensures { result.items ≡ head.now }
{
    let mut out = ArrayVec::new();
    append(&mut out, head);
    out
}

/// Appends a comma and a text.
pub fn append_field(out: &mut ArrayVec<u8, LONGEST_SENTENCE>, text: &[u8])
    requires { array_vec_len out.old + length text.now < 82 }
    ensures items { out.new.items ≡ out.old.items ++ comma ∷ text.now }
    ensures len { array_vec_len out.new ≡ array_vec_len out.old + 1 + length text.now }
{
    append(out, b",");
    append(out, text);
}

/// Appends a comma and a number in so many digits.
pub fn append_number_field(out: &mut ArrayVec<u8, LONGEST_SENTENCE>, width: usize, number: u32)
    requires { array_vec_len out.old + width < 82 }
    ensures items { out.new.items ≡ out.old.items ++ comma ∷ digits width number }
    ensures len { array_vec_len out.new ≡ array_vec_len out.old + 1 + width }
{
    append(out, b",");
    append_digits(out, width, u64::from(number));
}

/// The same number in more bits.
pub fn widened(number: Option<u8>) -> Option<u16>
    ensures { result ≡ number }
{
    match number {
        Some(number) => Some(u16::from(number)),
        None => None,
    }
}

/// Appends digits in decimal.
pub fn append_digit_text<const N: usize>(out: &mut ArrayVec<u8, N>, digits: &[u8])
    requires room { array_vec_len out.old + length digits.now ≤ N }
    requires digits { AreDigits digits.now }
    ensures items { out.new.items ≡ out.old.items ++ digit_text digits.now }
    ensures len { array_vec_len out.new ≡ array_vec_len out.old + length digits.now }
{
    for digit in digits {
        out.push(b'0' + *digit);
    }
}

/// Appends a comma and digits.
pub fn append_digits_field(out: &mut ArrayVec<u8, LONGEST_SENTENCE>, digits: &[u8])
    requires room { array_vec_len out.old + length digits.now < 82 }
    requires digits { AreDigits digits.now }
    ensures items { out.new.items ≡ out.old.items ++ comma ∷ digit_text digits.now }
    ensures len { array_vec_len out.new ≡ array_vec_len out.old + 1 + length digits.now }
{
    append(out, b",");
    append_digit_text(out, digits);
}

/// Appends a comma, and digits where there are some.
pub fn append_perhaps_digits_field<const N: usize>(
    out: &mut ArrayVec<u8, LONGEST_SENTENCE>,
    digits: &Option<[u8; N]>,
)
    requires room { array_vec_len out.old + N < 82 }
    requires digits { IfSome digits.now AreDigits }
    ensures items { out.new.items ≡ out.old.items ++ comma ∷ perhaps_text digit_text digits.now }
    ensures len { array_vec_len out.new ≤ array_vec_len out.old + 1 + N }
{
    append(out, b",");
    if let Some(digits) = digits {
        append_digit_text(out, digits);
    }
}

/// Appends `*`, the checksum of what comes after the `$`, CR and LF.
pub fn close(out: &mut ArrayVec<u8, LONGEST_SENTENCE>)
    requires room { array_vec_len out.old ≤ 77 }
    requires some { 0 < array_vec_len out.old }
    ensures { out.new.items ≡ frame.closed out.old.items }
{
    let sum = checksum(&out.as_slice()[1..]);
    append(
        out,
        &[
            b'*',
            hexadecimal(sum / 16),
            hexadecimal(sum % 16),
            b'\r',
            b'\n',
        ],
    );
}

/// A number below 16 as a capital hexadecimal digit.
pub fn hexadecimal(number: u8) -> u8
    requires { number < 16 }
    ensures { result ≡ frame.hexadecimal number }
{
    if number < 10 {
        b'0' + number
    } else {
        b'A' + (number - 10)
    }
}
