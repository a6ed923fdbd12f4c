//! Plain laws of lists, searches, tests and results, for the proofs of the crates above. There is no code.
#![tactic(auto)]
