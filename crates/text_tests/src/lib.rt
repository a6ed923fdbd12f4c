//! Tests of the crates of texts, lines and sentences.
#![tactic(auto)]

#[cfg(test)]
mod tests;
