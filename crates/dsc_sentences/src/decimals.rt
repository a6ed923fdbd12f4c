//! The decimal digits of numbers, each as a value.
ghost use Rattle.std.specs.Prelude.{◌≡◌, ◌+◌, ◌≤◌, ◌++◌};
ghost use Rattle.arrayvec.specs.ArrayVec.{array_vec_len};
ghost use Rattle.sentence_frame.specs.Texts.{IsDigits};
ghost use Rattle.dsc_sentences.specs.Calls.{decimals};

use arrayvec::ArrayVec;

/// Appends the last so many decimal digits of a number, by their values.
#[tactic(auto, unfolding(crate::specs::Calls::decimals))]
pub fn append_decimals<const N: usize>(out: &mut ArrayVec<u8, N>, width: usize, number: u64)
    requires { array_vec_len out.old + width ≤ N }
    ensures items { out.new.items ≡ out.old.items ++ decimals width number }
    ensures len { array_vec_len out.new ≡ array_vec_len out.old + width }
{
    if width > 0 {
        append_decimals(out, width - 1, number / 10);
        out.push((number % 10) as u8);
    }
}

/// The last ten decimal digits of a number.
pub fn ten_digits(number: u64) -> [u8; 10]
    ensures value { result ≡ decimals 10 number }
    ensures digits { IsDigits 10 result }
{
    digits_array(number)
}

/// These digits in an array.
#[tactic(auto, unfolding(crate::specs::Calls::decimals))]
fn digits_array(number: u64) -> [u8; 10]
    ensures { result ≡ decimals 10 number }
{
    [
        (number / 1_000_000_000 % 10) as u8,
        (number / 100_000_000 % 10) as u8,
        (number / 10_000_000 % 10) as u8,
        (number / 1_000_000 % 10) as u8,
        (number / 100_000 % 10) as u8,
        (number / 10_000 % 10) as u8,
        (number / 1_000 % 10) as u8,
        (number / 100 % 10) as u8,
        (number / 10 % 10) as u8,
        (number % 10) as u8,
    ]
}
