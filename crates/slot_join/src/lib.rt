//! The answer to what receivers showed of one call.
#![tactic(auto)]

mod extras;
mod hearing;
mod joined;
mod laws;
mod reading;
mod whole;

pub use hearing::{intact_copies_report_the_call, sent_call_is_answered};
pub use joined::{Extra, Joined, is_reported};
pub use laws::{
    alike_facts_have_one_answer, call_or_missing_place, ends_give_the_answer,
    heard_calls_show_no_other, intact_call_is_reported, late_calls_are_found,
    looks_report_the_call, no_answer_is_lacking, one_answer, transmissions_are_answered,
    unphased_receptions_are_heard,
};
pub use reading::report;
pub use slot_evidence::{Seen, Sheet, read_sheet};
