//! How the program is used, for whoever typed words that are no command.
#![tactic(auto)]

mod commands;
mod text;

pub use commands::nearest_command;
pub use text::USAGE;
