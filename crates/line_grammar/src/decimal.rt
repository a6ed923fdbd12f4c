//! Numbers in lines, digit by digit up to a bound.
ghost use Rattle.std.specs.Prelude.{◌≡◌, ℕ, ◌+◌, ◌-◌, ◌*◌, ◌<◌, ◌≤◌, ◌^◌, ◌&&◌, true, false, List, IfOk, IfErr, MatchOption, Ok, Err};
ghost use Rattle.line_grammar.specs.Bytes.{digit_zero};
ghost use Rattle.line_grammar.specs.Tokens as tokens;
ghost use Rattle.line_grammar.specs.Tokens.{is_digit, value_after};
ghost use Rattle.line_grammar.specs.inside.Reading as readers;
ghost use Rattle.line_grammar.specs.inside.Reading.{judged, read_digits, read_token};

use crate::reading::Left;

/// The largest number of lines, of groups and of moments (this project's profile).
pub const LARGEST_NUMBER: u64 = u32::MAX as u64;

/// Whether some number from the least to the most begins with the digits of this one, which isn't 0.
fn goes_on(least: u64, most: u64, number: u64) -> bool
    requires { least < 2 ^ 60 }
    ensures { result ≡ readers.goes_on least most number }
{
    let mut low = number;
    let mut high = number;
    while high < least {
        low = 10 * low;
        high = 10 * high + 9;
    }
    low <= most
}

/// The number with this digit more, where some number from the least to the most begins so.
fn with_digit(least: u64, most: u64, number: u64, byte: u8) -> Option<u64>
    requires least { least < 2 ^ 60 }
    requires number { number < 2 ^ 60 }
    ensures { MatchOption result
        ((is_digit byte && readers.goes_on least most (10 * number + (byte - digit_zero))) ≡ false)
        (λ next. (next ≤ most) × (next ≡ 10 * number + (byte - digit_zero))
        × ((is_digit byte && readers.goes_on least most next) ≡ true)) }
{
    if !byte.is_ascii_digit() {
        return None;
    }
    let next = 10 * number + u64::from(byte - b'0');
    if goes_on(least, most, next) {
        Some(next)
    } else {
        None
    }
}

/// The number with all digits that numbers from the least to the most go on with, and what follows them.
fn more_digits(least: u64, most: u64, first: u64, bytes: &[u8]) -> (u64, &[u8])
    requires most { most < 2 ^ 60 }
    requires least { least ≤ most }
    requires first { first ≤ most }
    ensures digits { (front : List ℕ) → (all : List ℕ)
        × (read_digits least most first front bytes.now ≡ judged least result.0 all result.1.now)
        × (value_after 0 front ≡ first → value_after 0 all ≡ result.0) }
    ensures most { result.0 ≤ most }
{
    let mut number = first;
    let mut rest = bytes;
    loop {
        let Some((byte, back)) = rest.split_first() else {
            return (number, rest);
        };
        let Some(next) = with_digit(least, most, number, *byte) else {
            return (number, rest);
        };
        number = next;
        rest = back;
    }
}

/// A decimal number from the least to the most at the front of these bytes, without leading zeros and as far as its
/// digits go, and what follows it.
pub fn free_number(least: u64, most: u64, bytes: &[u8]) -> Result<(u64, &[u8]), Left>
    requires most { most < 2 ^ 60 }
    requires least { least ≤ most }
    ensures number { IfOk result (λ parts. (front : List ℕ)
        × (read_token (tokens.free_number least most) bytes.now ≡ Ok (front, parts.1.now))
        × (value_after 0 front ≡ parts.0)) }
    ensures most { IfOk result (λ parts. parts.0 ≤ most) }
    ensures left { IfErr result (λ left. read_token (tokens.free_number least most) bytes.now ≡ Err left) }
{
    let Some((first, rest)) = bytes.split_first() else {
        return Err(0);
    };
    if *first == b'0' {
        return if least == 0 {
            Ok((0, rest))
        } else {
            Err(bytes.len())
        };
    }
    let Some(begun) = with_digit(least, most, 0, *first) else {
        return Err(bytes.len());
    };
    let (number, rest) = more_digits(least, most, begun, rest);
    if number < least {
        return Err(rest.len());
    }
    Ok((number, rest))
}
