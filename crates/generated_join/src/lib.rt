//! The join of generated groups: the input that `make N` stands for, and the summary of its answers.
#![tactic(auto)]

mod alerts;
mod hearing;
mod joining;
mod laws;
mod summary;

pub use hearing::RECEPTIONS;
pub use joining::{MOST_MADE, summary_of};
pub use laws::{generated_lines_are_read, joins_end_so, made_text_is_one, made_text_is_there};
pub use summary::Summary;
