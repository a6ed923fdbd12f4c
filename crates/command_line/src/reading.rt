//! Reading the words of the command line.
ghost use Rattle.std.specs.Prelude.{◌≡◌, ◌↔◌, List, [], IfOk, IfSome, IsNone, IsErrOf, drop, map, codes, string_bytes, option_map};
ghost use Rattle.std.specs.List.{list_any};
ghost use Rattle.std.specs.Str.{bytes_eq};
ghost use Rattle.clap.specs.Words.{Row, Text, fault_of, first_of, kind_of, subcommand_of, subcommand_rows_of};
ghost use Rattle.command_line.specs.Words.{IsInRange, IsPlan};
ghost use Rattle.command_line.specs.inside.CommandLine.{dsc, IsAsked};
ghost use Rattle.command_line.specs.declared.plans.Plan.{Plan};

use crate::command_line::command_line;
use crate::options::{groups, is_long, workers};
use crate::plans::{Plan, PlanError};
use clap::error::ErrorKind;
use clap::{ArgMatches, Error};
use std::alloc::Global;

// In a frame of its own: what `clap` builds doesn't lie on the stack while a command runs.
/// The plan that the words are; the first of them is the program's name. `Refused` where they are none, and `Memory`
/// where no memory was found to read them.
#[inline(never)]
pub fn plan_of(alloc: Global, words: &[String]) -> Result<Plan, PlanError>
    ensures planned { IfOk result (IsPlan (map string_bytes words.now)) }
    ensures range { IfOk result IsInRange }
    ensures refused { IsErrOf result PlanError.Refused → (plan : Plan) → IsPlan (map string_bytes words.now) plan → ⊥ }
{
    if has_dashes(words) {
        return Err(PlanError::Refused);
    }
    let matches = matches_of(alloc, words)?;
    read(&matches).ok_or(PlanError::Refused)
}

/// Whether a word after the program's name is `--`, which `clap` passes over.
fn has_dashes(words: &[String]) -> bool
    ensures { result ≡ list_any (λ word. bytes_eq (string_bytes word) (codes "--")) (drop 1 words.now) }
{
    words.iter().skip(1).any(|word| word.as_str() == "--")
}

/// What `clap` makes of the words.
fn matches_of<'a>(alloc: Global, words: &'a [String]) -> Result<ArgMatches<'a>, PlanError>
    ensures passed { IfOk result (λ _. fault_of dsc (map string_bytes words.entry.now) ≡ []) }
    ensures rows { IfOk result (λ m. subcommand_rows_of m ≡ subcommand_of dsc (map string_bytes words.entry.now)) }
    ensures refused { IsErrOf result PlanError.Refused → fault_of dsc (map string_bytes words.entry.now) ≡ [] → ⊥ }
{
    let command = command_line(alloc)?;
    command.try_get_matches_from(words).map_err(cause)
}

/// Whether memory was wanting, or `clap` refused the words.
fn cause(error: Error) -> PlanError
    ensures { (result ≡ PlanError.Memory) ↔ (kind_of error ≡ ErrorKind.OutOfMemory) }
{
    match error.kind() {
        ErrorKind::OutOfMemory => PlanError::Memory,
        _ => PlanError::Refused,
    }
}

/// The plan that the command and the number in the matches ask for.
fn read(matches: &ArgMatches) -> Option<Plan>
    ensures some { IfSome result (λ plan. (command : Text) × (rows : List Row)
        × (subcommand_rows_of matches.now ≡ Some (command, rows))
        × IsAsked command (first_of (codes "number") rows) plan) }
    ensures none { IsNone result → (command : Text) (rows : List Row) (plan : Plan)
        → subcommand_rows_of matches.now ≡ Some (command, rows) → IsAsked command (first_of (codes "number") rows) plan
        → ⊥ }
{
    let (command, values) = matches.subcommand()?;
    asked(command, values.get_str("number"))
}

/// The plan that a command asks for, with the text that its number was given.
fn asked(command: &str, given: Option<&str>) -> Option<Plan>
    ensures some { IfSome result (IsAsked command.now (option_map (λ s. s.now) given.entry)) }
    ensures none { IsNone result → (plan : Plan) → IsAsked command.now (option_map (λ s. s.now) given.entry) plan → ⊥ }
{
    match command {
        "join" => Some(Plan::Join {
            workers: workers(given)?,
        }),
        "evidence" => Some(Plan::Evidence {
            workers: workers(given)?,
        }),
        "encode" => Some(Plan::Encode {
            long: is_long(given)?,
        }),
        "sentences" => Some(Plan::Sentences),
        "replay" => Some(Plan::Replay {
            workers: workers(given)?,
        }),
        "make" => Some(Plan::Make {
            groups: groups(given)?,
        }),
        "capture" => Some(Plan::Capture),
        "watch" => Some(Plan::Watch {
            workers: workers(given)?,
        }),
        "exchange" => Some(Plan::Exchange),
        "book" => Some(Plan::Book),
        _ => None,
    }
}
