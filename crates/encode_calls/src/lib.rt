//! Calls on air: the command `encode`, which writes the line of a reception for each call.
#![tactic(auto)]

mod command;
mod laws;
mod lines;
mod signs;
mod transmissions;

pub use command::{Dots, Encode, LongDots, ShortDots};
pub use laws::{inputs_have_outputs, lines_determine_output};
pub use signs::append_signs;
pub use transmissions::slots_of;
