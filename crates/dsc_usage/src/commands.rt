//! Which command a word nearly is.
ghost use Rattle.std.specs.Prelude.{◌≡◌, IfOk, IfSome, true, false, Contains};
ghost use Rattle.dsc_usage.specs.Nearness.{IsNear, command_names};

use std::alloc::{AllocError, Global};
use strsim::osa_distance;

/// The commands' names.
const COMMANDS: [&str; 10] = [
    "join",
    "evidence",
    "watch",
    "capture",
    "encode",
    "sentences",
    "book",
    "replay",
    "exchange",
    "make",
];

/// Whether a word becomes the name by so many slips at most, and by fewer than half as many as the name has bytes. A
/// slip is a character too many, one too few, another one, or two that changed places. The error is want of memory.
fn is_near(alloc: Global, word: &str, name: &str, most: usize) -> Result<bool, AllocError>
    ensures near { IfOk result (λ is. is ≡ true → IsNear most word.now name.now) }
    ensures far { IfOk result (λ is. is ≡ false → IsNear most word.now name.now → ⊥) }
{
    let slips = osa_distance(alloc, word, name)?;
    Ok(slips <= most && slips < name.len().div_ceil(2))
}

/// The first command that a word is near to.
fn first_near(alloc: Global, word: &str, most: usize) -> Result<Option<&'static str>, AllocError>
    ensures near { IfOk result (λ found. IfSome found (λ name. IsNear most word.now name.now)) }
    ensures command { IfOk result (λ found. IfSome found (λ name. Contains command_names name.now)) }
{
    for name in COMMANDS {
        if is_near(alloc, word, name, most)? {
            return Ok(Some(name));
        }
    }
    Ok(None)
}

/// The command that was meant by a word that is none: one to which a single slip leads, or else two. `None` where there
/// is none, and of a command itself. The error is want of memory.
pub fn nearest_command(alloc: Global, word: &str) -> Result<Option<&'static str>, AllocError>
    ensures near { IfOk result (λ found. IfSome found (λ name. IsNear 2 word.now name.now)) }
    ensures command { IfOk result (λ found. IfSome found (λ name. Contains command_names name.now)) }
{
    if first_near(alloc, word, 0)?.is_some() {
        return Ok(None);
    }
    match first_near(alloc, word, 1)? {
        Some(name) => Ok(Some(name)),
        None => first_near(alloc, word, 2),
    }
}
