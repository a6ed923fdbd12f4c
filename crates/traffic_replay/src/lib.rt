//! Replays of traffic files: a station, the events that the lines of a file give it, and what it does at them.
#![tactic(auto)]

mod command;
mod heard;
mod laws;
mod outcomes;
mod replaying;
mod stages;
mod steps;

pub use command::Replay;
pub use laws::{
    alerts_end_by_hand_or_acknowledgement, histories_are_legal, lines_determine_output,
    no_output_is_lacking,
};
pub use replaying::replay;
pub use station_lines::civil_minute;
