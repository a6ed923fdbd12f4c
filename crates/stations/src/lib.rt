//! What a ship's station and a coast station have in common: each goes from event to event by the rules of its kind.
#![tactic(auto)]

mod station;

pub use station::Station;
