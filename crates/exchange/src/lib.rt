//! A ship and a coast station over a link that loses, repeats and reorders: every call that one end has sent may come
//! to the other end at any time, any number of times, or never.
#![tactic(auto)]

mod events;
mod laws;
mod sent;
mod steps;
mod told;
mod worlds;

pub use events::WorldEvent;
pub use laws::{
    alerts_end_by_cancel_or_acknowledgement, exchanges_go_on_legally, no_alert_after_an_end,
};
pub use told::{Outcome, Told};
pub use worlds::World;
