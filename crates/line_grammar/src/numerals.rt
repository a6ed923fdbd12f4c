//! Numbers in lines that have so many digits, in ranges.
ghost use Rattle.std.specs.Prelude.{◌≡◌, ◌+◌, ◌-◌, ◌*◌, ◌<◌, ◌≤◌, ◌^◌, ◌&&◌, true, false, ◌++◌, ◌∷◌, [], IfOk, IfErr, IfSome, MatchOption, Ok, Err};
ghost use Rattle.line_grammar.specs.Bytes.{digit_zero};
ghost use Rattle.line_grammar.specs.Shapes as shape;
ghost use Rattle.line_grammar.specs.Shapes.{digits, is_within};
ghost use Rattle.line_grammar.specs.Tokens.{is_digit};
ghost use Rattle.line_grammar.specs.inside.Reading.{fits, read_shape};
ghost use Rattle.line_grammar.specs.inside.Soundness.{are_ranges};

use crate::reading::Left;

/// Ten to this power.
fn power_of_ten(exponent: usize) -> u64
    requires { exponent ≤ 10 }
    ensures power { result ≡ 10 ^ exponent }
    ensures positive { 0 < result }
{
    10u64.pow(exponent as u32)
}

/// Whether some number of these ranges has so many digits more after those of this one.
#[tactic(auto, unfolding(crate::specs::inside::Reading::fits))]
fn fits(more: usize, ranges: &[(u64, u64)], number: u64) -> bool
    requires { more ≤ 10 }
    ensures { result ≡ fits more ranges.now number }
{
    let power = power_of_ten(more);
    ranges.iter().any(|range| range.0 / power <= number && number <= range.1 / power)
}

/// The number with this digit more, where some number of these ranges has so many digits after them.
fn with_digit(more: usize, ranges: &[(u64, u64)], number: u64, byte: u8) -> Option<u64>
    requires more { more ≤ 10 }
    requires number { number < 2 ^ 60 }
    ensures { MatchOption result
        ((is_digit byte && fits more ranges.now (10 * number + (byte - digit_zero))) ≡ false)
        (λ next. (next ≡ 10 * number + (byte - digit_zero)) × ((is_digit byte && fits more ranges.now next) ≡ true)) }
{
    if !byte.is_ascii_digit() {
        return None;
    }
    let next = 10 * number + u64::from(byte - b'0');
    if fits(more, ranges, next) {
        Some(next)
    } else {
        None
    }
}

/// A number of these ranges in so many digits at the front of these bytes, and what follows it, digit by digit: so the
/// first that no number goes on with is found.
#[inline(never)]
fn digit_by_digit<'a>(
    width: usize,
    ranges: &[(u64, u64)],
    bytes: &'a [u8],
) -> Result<(u64, &'a [u8]), Left>
    requires width { width ≤ 10 }
    requires ranges { are_ranges width ranges.now ≡ true }
    ensures number { IfOk result (λ parts. (is_within ranges.now parts.0 ≡ true)
        × (read_shape (shape.fixed_number width ranges.now) bytes.now ≡ Ok (digits width parts.0, parts.1.now))) }
    ensures left { IfErr result (λ left. read_shape (shape.fixed_number width ranges.now) bytes.now ≡ Err left) }
{
    let mut number = 0;
    let mut rest = bytes;
    let mut more = width;
    while more > 0 {
        more -= 1;
        let Some((byte, back)) = rest.split_first() else {
            return Err(0);
        };
        let Some(next) = with_digit(more, ranges, number, *byte) else {
            return Err(rest.len());
        };
        number = next;
        rest = back;
    }
    Ok((number, rest))
}

/// The number that so many digits at the front of these bytes are, and what follows them, where digits they are.
#[inline(always)]
fn digits_of(width: usize, bytes: &[u8]) -> Option<(u64, &[u8])>
    requires { width ≤ 10 }
    ensures { IfSome result (λ parts. bytes.now ≡ digits width parts.0 ++ parts.1.now) }
{
    let (front, rest) = bytes.split_at_checked(width)?;
    let mut number = 0;
    for byte in front {
        if !byte.is_ascii_digit() {
            return None;
        }
        number = 10 * number + (u64::from(*byte) - u64::from(b'0'));
    }
    Some((number, rest))
}

/// Whether one of these ranges has this number.
#[inline(always)]
fn has(ranges: &[(u64, u64)], number: u64) -> bool
    ensures { result ≡ is_within ranges.now number }
{
    ranges
        .iter()
        .any(|range| range.0 <= number && number <= range.1)
}

/// A number of these ranges in so many digits at the front of these bytes, and what follows it. Only where none is
/// there, the digits are judged one by one. Where the width and the ranges are constants, the loops fold.
#[inline(always)]
pub fn fixed_number<'a>(
    width: usize,
    ranges: &[(u64, u64)],
    bytes: &'a [u8],
) -> Result<(u64, &'a [u8]), Left>
    requires width { width ≤ 10 }
    requires ranges { are_ranges width ranges.now ≡ true }
    ensures number { IfOk result (λ parts. (is_within ranges.now parts.0 ≡ true)
        × (read_shape (shape.fixed_number width ranges.now) bytes.now ≡ Ok (digits width parts.0, parts.1.now))) }
    ensures left { IfErr result (λ left. read_shape (shape.fixed_number width ranges.now) bytes.now ≡ Err left) }
{
    if let Some((number, rest)) = digits_of(width, bytes)
        && has(ranges, number)
    {
        return Ok((number, rest));
    }
    digit_by_digit(width, ranges, bytes)
}

/// What is there instead of such a number, or the number. It isn't inlined, since few lines come here.
#[inline(never)]
fn judged<'a>(width: usize, most: u64, bytes: &'a [u8]) -> Result<(u64, &'a [u8]), Left>
    requires width { width ≤ 10 }
    requires ranges { are_ranges width ((0, most) ∷ []) ≡ true }
    ensures number { IfOk result (λ parts. (is_within ((0, most) ∷ []) parts.0 ≡ true)
        × (read_shape (shape.fixed_number width ((0, most) ∷ [])) bytes.now ≡ Ok (digits width parts.0, parts.1.now))) }
    ensures left { IfErr result (λ left. read_shape (shape.fixed_number width ((0, most) ∷ [])) bytes.now ≡ Err left) }
{
    digit_by_digit(width, &[(0, most)], bytes)
}

/// A number of at most this in so many digits at the front of these bytes, and what follows it: `fixed_number` of the one
/// range from 0 on, which is made only where no such number is there.
#[inline(always)]
pub fn fixed_number_to<'a>(
    width: usize,
    most: u64,
    bytes: &'a [u8],
) -> Result<(u64, &'a [u8]), Left>
    requires width { width ≤ 10 }
    requires ranges { are_ranges width ((0, most) ∷ []) ≡ true }
    ensures number { IfOk result (λ parts. (is_within ((0, most) ∷ []) parts.0 ≡ true)
        × (read_shape (shape.fixed_number width ((0, most) ∷ [])) bytes.now ≡ Ok (digits width parts.0, parts.1.now))) }
    ensures left { IfErr result (λ left. read_shape (shape.fixed_number width ((0, most) ∷ [])) bytes.now ≡ Err left) }
{
    if let Some((number, rest)) = digits_of(width, bytes)
        && has(&[(0, most)], number)
    {
        return Ok((number, rest));
    }
    judged(width, most, bytes)
}
