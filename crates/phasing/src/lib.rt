//! Phasing of ITU-R M.493: where a transmission's slots are in a reception, and what they show; and the elements that
//! are sent.
#![tactic(auto)]

mod counting;
mod intact;
mod laws;
mod marking;
mod one_lead;
mod packed;
mod phase;
#[cfg(test)]
mod plain;
mod reception;
mod sending;
mod window;

pub use laws::{
    elements_decide, late_starts_are_found, limits, none_past_the_end, origin_is_least,
    whole_calls_are_found,
};
pub use one_lead::phased;
pub use packed::Reception;
pub use phase::{FRONT_INDICES, Front, first_phased, lead, origin, search_front};
pub use reception::{LAST_LEAD, LEAD_OF_FIRST, LONGEST, PHASING_ELEMENTS, slot_symbol};
pub use sending::transmission;
pub use window::Elements;

#[cfg(test)]
mod tests;
