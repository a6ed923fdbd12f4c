//! Evidence of slots: what receptions showed of each of 64 places, and the sheet that keeps it.
#![tactic(auto)]

mod laws;
mod places;
mod reading;
mod sheets;
mod slots;

pub use laws::{ends_are_kept, meet_forgets_order, one_seen, one_sheet, unions_forget_order};
pub use phasing::Reception;
pub use places::Seen;
pub use reading::{read_sheet, sheet_at, shown_by};
pub use sheets::{Sheet, sheet_has_facts, sheet_is_lawful};

#[cfg(test)]
mod plain;
#[cfg(test)]
mod tests;
