//! Tests of the crates of stations.
#![tactic(auto)]

#[cfg(test)]
mod tests;
