//! Exchanges: the command `exchange`, which plays a ship and a coast station against each other over a link, by the
//! lines of a file.
#![tactic(auto)]

mod command;
mod events;
mod exchanging;
mod laws;
mod stages;
mod steps;
mod telling;

pub use command::Exchanging;
pub use exchanging::exchange;
pub use laws::{
    alerts_end_by_cancel_or_acknowledgement, histories_are_legal, inputs_have_outputs,
    lines_determine_output,
};
