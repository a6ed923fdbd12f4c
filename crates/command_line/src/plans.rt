//! What the words of the command line ask for.
ghost use Rattle.std.specs.Prelude.{◌≡◌, ℕ, List};
ghost use Rattle.command_line.specs.Words.{IsPlan};
ghost use Rattle.command_line.specs.declared.plans.Plan.{Plan};

use std::alloc::AllocError;

/// What the words of the command line ask for: a command and its options.
#[derive(Clone, Copy, Debug, PartialEq, Eq)]
pub enum Plan {
    /// `join [--workers N]`: what the facts of each group say. 1 to 64 workers, 1 where none are given.
    Join { workers: u8 },
    /// `evidence [--workers N]`: the facts of each group. 1 to 64 workers, 1 where none are given.
    Evidence { workers: u8 },
    /// `encode [--dots D]`: the transmissions of calls, after 200 dots where `long` and else after 20.
    Encode { long: bool },
    /// `sentences`: the sentences of calls, and verdicts on sentences.
    Sentences,
    /// `replay [--workers N]`: what a station does at the events of a traffic file. 1 to 64 workers, 1 where none are
    /// given.
    Replay { workers: u8 },
    /// `make N`: how the receptions of N generated groups are joined. 1 to 1,000 groups.
    Make { groups: u16 },
    /// `capture`: every call of a stream of elements.
    Capture,
    /// `watch [--workers N]`: a call of each group as soon as a batch ends that reports it, and at the end what `join`
    /// says. 1 to 64 workers, 1 where none are given.
    Watch { workers: u8 },
    /// `exchange`: a ship and a coast station over a link, by the events of a file.
    Exchange,
    /// `book`: the book of casualties of logs of sentences.
    Book,
}

/// Why words gave no plan.
#[derive(Clone, Copy, Debug, PartialEq, Eq)]
pub enum PlanError {
    /// The words are no plan.
    Refused,
    /// No memory was found to read them.
    Memory,
}

impl From<AllocError> for PlanError {
    ghost use Rattle.command_line.specs.declared.plans.PlanError.TheVariants.{Memory};

    ghost from_gives = { λ _ e. e ≡ Memory };

    fn from(_error: AllocError) -> PlanError {
        PlanError::Memory
    }
}

/// The law that words are one plan at most. It does nothing.
pub fn one_plan()
    ensures { (words : List (List ℕ)) (a b : Plan) → IsPlan words a → IsPlan words b → a ≡ b }
{}
