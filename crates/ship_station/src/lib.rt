//! A ship's station: its own distress alert, the calls that it sends, and those that it hears.
#![tactic(auto)]

mod alerts;
mod events;
mod groups;
mod laws;
mod ships;

pub use events::{ShipEvent, ShipWhat};
pub use laws::{
    alerts_are_sent_as_attempts, alerts_end_by_hand_or_acknowledgement, attempts_are_apart,
    held_calls_are_sent_at_most_twice, no_alert_after_an_end, no_attempt_after_an_end,
    repeated_calls_are_sendable, sixteen_calls_are_held,
};
pub use ships::Ship;
