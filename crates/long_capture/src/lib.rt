//! Every call of one long stream of elements: its starts, which are its phased origins, in order, each with the sheet
//! of its facts.
#![tactic(auto)]

mod bounds;
mod captures;
mod laws;
mod scans;
mod starts;
mod windows;

pub use bounds::{DECIDING, SEARCHED_AHEAD, TAIL, UNDECIDED, WINDOW};
pub use captures::{Capture, Taken};
pub use laws::{
    answers_add_up, decided_starts_stay, numbers_of_elements, one_list, slots_end_in_time,
    start_reports_the_call, starts_go_on, taking_ends,
};
pub use starts::Start;

#[cfg(test)]
mod listing;
#[cfg(test)]
mod plain;
#[cfg(test)]
mod tests;
