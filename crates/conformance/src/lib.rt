//! Worked rows of the suite, as tests over public calls. Their values come from the Recommendations'
//! tables and from rows worked by hand, and never from the code.
#![tactic(auto)]

#[cfg(test)]
mod tests;
