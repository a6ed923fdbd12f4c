//! A board of shared words: each of its seats posts what it knows of a call, and looks at it, by single steps for which
//! no call waits.
#![tactic(auto)]

mod allowed;
mod board;
mod laws;
mod looking;
mod posting;
mod seats;
mod words;

pub use allowed::{AllFacts, Allowed, all_facts_may_be_posted};
pub use board::Board;
pub use laws::{one_core, seats_are_at_rest, whole_share};
pub use seats::{Seat, WHOLE};
