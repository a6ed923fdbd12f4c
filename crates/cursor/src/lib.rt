//! A cursor over a list of bytes or symbols.
#![tactic(auto)]

mod remaining;

pub use remaining::Cursor;
