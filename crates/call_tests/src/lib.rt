//! Tests of the crates of calls and expansions.
#![tactic(auto)]

#[cfg(test)]
mod expansions;
#[cfg(test)]
mod grammar;
#[cfg(test)]
mod values;
