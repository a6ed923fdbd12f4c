//! Tests of the crates of streams and commands.
#![tactic(auto)]

#[cfg(test)]
mod tests;
