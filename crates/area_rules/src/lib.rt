//! Who calls are addressed to: areas, and the addresses of calls at ship and coast stations.
#![tactic(auto)]

mod addressing;
mod areas;

pub use addressing::{for_coast, for_ship};
pub use areas::contains;
