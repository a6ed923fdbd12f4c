//! Calls told while an input is still read: the command `watch`, which writes a call of each group as soon as a batch
//! ends that reports it.
#![tactic(auto)]

mod closing;
mod command;
mod driving;
mod telling;

pub use command::WatchGroups;
pub use driving::watch_groups;
pub use telling::ToldCall;
