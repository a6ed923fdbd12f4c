//! A coast station: the distress alerts that it hears, accepts, acknowledges and relays, and the calls that it sends
//! and answers.
#![tactic(auto)]

mod casualties;
mod coasts;
mod events;
mod laws;

pub use call_values::Band;
pub use casualties::MOST_CASUALTIES;
pub use coasts::Coast;
pub use events::{CoastEvent, CoastWhat};
pub use laws::{
    acknowledgements_go_back_to_accepted_alerts, an_alert_is_heard_between_acknowledgements,
    an_identity_is_acknowledged_once, casualties_are_born, held_calls_are_sent_at_most_twice,
    repeated_calls_are_sendable, sixteen_calls_are_held, sixteen_casualties,
};
