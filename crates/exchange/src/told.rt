//! What an event of an exchange gives.
use traffic_rules::{Acts, StationRefusal};

/// What a step of an exchange gives (this project's profile).
#[derive(Debug, PartialEq, Eq, Drop)]
pub enum Told {
    /// What the end did, in order.
    Acts(Acts),
    /// The end refused the event.
    Refused(StationRefusal),
    /// No call of this number was sent.
    Nothing(u32),
}

/// What a step gives, where the acts are in a list of the caller.
#[derive(Clone, Copy, Debug, PartialEq, Eq)]
pub enum Outcome {
    /// The end accepted the event.
    Done,
    /// The end refused the event.
    Refused(StationRefusal),
    /// No call of this number was sent.
    Nothing(u32),
}
