//! Time diversity of ITU-R M.493: the two slots of each character of a call, and what all slots show.
#![tactic(auto)]

mod laws;
mod sending;
mod slots;

pub use laws::{both_slots_show_the_character, slot_numbers, slots_of_a_place};
pub use sending::{on_air, write_on_air};
pub use slots::{SLOTS, dx_slot, place_of, rx_slot};

#[cfg(test)]
mod tests;
