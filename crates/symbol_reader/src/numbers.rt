//! Numbers as characters of two digits each.
ghost use Rattle.std.specs.Prelude.{◌≡◌, ◌<◌};
ghost use Rattle.symbol_reader.specs.Digits as digits;

/// Ten digits in five characters of two (ITU-R M.493, numbers).
#[tactic(auto, unfolding(crate::specs::Digits::ten_digits))]
pub fn ten_digits(number: u64) -> [u8; 5]
    requires { number < 10000000000 }
    ensures { result ≡ digits.ten_digits number }
{
    [
        (number / 100_000_000) as u8,
        (number / 1_000_000 % 100) as u8,
        (number / 10_000 % 100) as u8,
        (number / 100 % 100) as u8,
        (number % 100) as u8,
    ]
}

/// Eight digits in four characters of two.
#[tactic(auto, unfolding(crate::specs::Digits::eight_digits))]
pub fn eight_digits(number: u32) -> [u8; 4]
    requires { number < 100000000 }
    ensures { result ≡ digits.eight_digits number }
{
    [
        (number / 1_000_000) as u8,
        (number / 10_000 % 100) as u8,
        (number / 100 % 100) as u8,
        (number % 100) as u8,
    ]
}

/// Six digits in three characters of two.
#[tactic(auto, unfolding(crate::specs::Digits::six_digits))]
pub fn six_digits(number: u32) -> [u8; 3]
    requires { number < 1000000 }
    ensures { result ≡ digits.six_digits number }
{
    [
        (number / 10_000) as u8,
        (number / 100 % 100) as u8,
        (number % 100) as u8,
    ]
}

/// Four digits in two characters of two.
#[tactic(auto, unfolding(crate::specs::Digits::four_digits))]
pub fn four_digits(number: u32) -> [u8; 2]
    requires { number < 10000 }
    ensures { result ≡ digits.four_digits number }
{
    [(number / 100) as u8, (number % 100) as u8]
}
