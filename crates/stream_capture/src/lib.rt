//! A stream of elements: the command `capture`, which writes the answer at each start.
#![tactic(auto)]

mod command;
mod laws;
mod lines;

pub use command::Capturing;
pub use laws::{lines_determine_output, no_output_is_lacking, streams_determine_output};
