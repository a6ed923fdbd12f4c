//! The ranges of the numbers of options.
ghost use Rattle.std.specs.Prelude.{ℕ, Bool, IfSome, IsNone, option_map};
ghost use Rattle.command_line.specs.Words.{IsDots, IsGroups, IsWorkers};

use crate::numbers::number;

/// The most workers that a command takes.
const MOST_WORKERS: u16 = 64;

/// The most groups that `make` takes.
const MOST_MADE: u16 = 1000;

/// The number of workers: 1 where none is given.
pub fn workers(given: Option<&str>) -> Option<u8>
    ensures some { IfSome result (IsWorkers (option_map (λ s. s.now) given.entry)) }
    ensures none { IsNone result → (n : ℕ) → IsWorkers (option_map (λ s. s.now) given.entry) n → ⊥ }
{
    match given {
        None => Some(1),
        Some(text) => Some(number(text, MOST_WORKERS)? as u8),
    }
}

/// Whether the dot pattern is the long one, of 200 dots: 20 where none are given.
pub fn is_long(given: Option<&str>) -> Option<bool>
    ensures some { IfSome result (IsDots (option_map (λ s. s.now) given.entry)) }
    ensures none { IsNone result → (long : Bool) → IsDots (option_map (λ s. s.now) given.entry) long → ⊥ }
{
    match given {
        None | Some("20") => Some(false),
        Some("200") => Some(true),
        Some(_) => None,
    }
}

/// The number of groups, which has to be given.
pub fn groups(given: Option<&str>) -> Option<u16>
    ensures some { IfSome result (IsGroups (option_map (λ s. s.now) given.entry)) }
    ensures none { IsNone result → (n : ℕ) → IsGroups (option_map (λ s. s.now) given.entry) n → ⊥ }
{
    match given {
        None => None,
        Some(text) => Some(number(text, MOST_MADE)?),
    }
}
