//! The symbols of ITU-R M.493 by name, and the sets of them that this project's calls may have.
#![tactic(auto)]

pub mod categories;
pub mod ends;
pub mod formats;
pub mod last_digits;
pub mod laws;
pub mod messages;
pub mod natures;
pub mod notices;
pub mod phasing;
pub mod sets;
pub mod telecommands;
pub mod worked;
