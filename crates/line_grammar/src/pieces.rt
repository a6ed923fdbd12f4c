//! Appending bytes, numbers and digits to a text with room for them.
ghost use Rattle.std.specs.Prelude.{◌≡◌, ◌+◌, ◌<◌, ◌≤◌, ◌++◌, length, decimal, slice_index_or};
ghost use Rattle.arrayvec.specs.ArrayVec.{array_vec_len};
ghost use Rattle.line_grammar.specs.Shapes.{digits};

use arrayvec::ArrayVec;
use itoa::Buffer;

/// Appends a text for which there is room.
pub fn append<const N: usize>(out: &mut ArrayVec<u8, N>, text: &[u8])
    requires { array_vec_len out.old + length text.now ≤ N }
    ensures items { out.new.items ≡ out.old.items ++ text.now }
    ensures len { array_vec_len out.new ≡ array_vec_len out.old + length text.now }
{
    let _fits = out.try_extend_from_slice(text);
}

/// Appends a number in plain decimal digits, at most twenty.
pub fn append_number<const N: usize>(out: &mut ArrayVec<u8, N>, number: u64)
    requires { array_vec_len out.old + 20 ≤ N }
    ensures items { out.new.items ≡ out.old.items ++ decimal number }
    ensures len { array_vec_len out.new ≤ array_vec_len out.old + 20 }
{
    let mut buffer = Buffer::new();
    append(out, buffer.format(number).as_bytes());
}

/// The two digits of each number below a hundred.
static PAIRS: [u8; 200] =
    *b"00010203040506070809101112131415161718192021222324252627282930313233343536373839404142434445464748495051525354555657585960616263646566676869707172737475767778798081828384858687888990919293949596979899";

/// The digit with this number in the table.
#[inline(always)]
fn table_digit(at: usize) -> u8
    requires { at < 200 }
    ensures { result ≡ slice_index_or PAIRS at 0 }
{
    PAIRS[at]
}

/// The two digits of a number below a hundred.
#[inline(always)]
fn two_digits(number: u64) -> [u8; 2]
    requires { number < 100 }
    ensures { result ≡ digits 2 number }
{
    let at = 2 * number as usize;
    [table_digit(at), table_digit(at + 1)]
}

/// Appends the last `width` decimal digits of a number, zeros in front included, where these are few: from the last ones
/// on, two by a table with each division.
#[inline(always)]
fn append_few_digits<const N: usize>(out: &mut ArrayVec<u8, N>, width: usize, number: u64)
    requires room { array_vec_len out.old + width ≤ N }
    requires few { width ≤ 10 }
    ensures items { out.new.items ≡ out.old.items ++ digits width number }
    ensures len { array_vec_len out.new ≡ array_vec_len out.old + width }
{
    let mut text = [b'0'; 10];
    let mut rest = number;
    let mut at = width;
    while at > 1 {
        at -= 2;
        let pair = two_digits(rest % 100);
        text[at + 1] = pair[1];
        text[at] = pair[0];
        rest /= 100;
    }
    if at > 0 {
        text[0] = b'0' + (rest % 10) as u8;
    }
    append(out, &text[..width]);
}

/// Appends the last `width` decimal digits of a number, however many.
#[inline(never)]
#[tactic(auto, unfolding(crate::specs::Shapes::digits))]
fn append_many_digits<const N: usize>(out: &mut ArrayVec<u8, N>, width: usize, number: u64)
    requires { array_vec_len out.old + width ≤ N }
    ensures items { out.new.items ≡ out.old.items ++ digits width number }
    ensures len { array_vec_len out.new ≡ array_vec_len out.old + width }
{
    if width > 0 {
        append_many_digits(out, width - 1, number / 10);
        out.push(b'0' + (number % 10) as u8);
    }
}

/// Appends the last `width` decimal digits of a number, zeros in front included. Up to ten, a loop writes them from the
/// last one on: it unrolls where the width is a constant.
#[inline]
pub fn append_digits<const N: usize>(out: &mut ArrayVec<u8, N>, width: usize, number: u64)
    requires { array_vec_len out.old + width ≤ N }
    ensures items { out.new.items ≡ out.old.items ++ digits width number }
    ensures len { array_vec_len out.new ≡ array_vec_len out.old + width }
{
    if width <= 10 {
        append_few_digits(out, width, number);
    } else {
        append_many_digits(out, width, number);
    }
}
