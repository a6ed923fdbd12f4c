//! The groups of an input: the facts of each, and the commands that write a line of each.
#![tactic(auto)]

mod commands;
mod driving;
mod groups;
mod laws;
mod taking;
mod telling;

pub use commands::WriteGroups;
pub use driving::write_groups;
pub use groups::{MOST_GROUPS, MOST_IN_BATCH, NamedGroups, Waiting};
pub use laws::{
    evidence_stands_for_lines, facts_determine_texts, limits, lines_determine_output,
    no_output_is_lacking, texts_forget_order,
};
pub use taking::take_read;
pub use telling::{GroupWriter, WriteAnswers, WriteEvidence, append_groups};
