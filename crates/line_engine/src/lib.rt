//! One engine for every command that reads lines: it cuts the input, gives each line to the command, writes what the
//! command gave, and names the first fault.
#![tactic(auto)]

mod bounds;
mod command;
mod driving;
mod faults;
mod halts;
mod laws;
mod telling;
mod walk;
mod window;

pub use bounds::{LONGEST_LINE, MOST_LINES, MOST_TAKEN};
pub use command::{Command, Refusal};
pub use driving::drive;
pub use faults::Fault;
pub use laws::{limits, one_first_fault, one_output, said_lines};
