//! Numbers of the command line.
ghost use Rattle.std.specs.Prelude.{IfSome, IsNone, ℕ};
ghost use Rattle.command_line.specs.Words.{IsNumber};

use itoa::Buffer;

/// The number from 1 to `most` that the text spells in plain decimal digits. A sign, a leading zero or any other byte
/// gives none.
pub fn number(text: &str, most: u16) -> Option<u16>
    ensures some { IfSome result (IsNumber most text.now) }
    ensures none { IsNone result → (n : ℕ) → IsNumber most text.now n → ⊥ }
{
    let number: u16 = text.parse().ok()?;
    let mut digits = Buffer::new();
    let is_plain = digits.format(number) == text;
    if is_plain && 1 <= number && number <= most {
        Some(number)
    } else {
        None
    }
}
