//! What the lists of calls and of expansions have in common: reading place by place, by sets of the symbols that may be
//! there; digits two to a character; the error check character; and why a list is refused.
#![tactic(auto)]

mod checking;
mod endings;
mod letters;
mod numbers;
mod reading;
mod refusals;

pub use checking::check;
pub use endings::closing;
pub use letters::Letter;
pub use numbers::{eight_digits, four_digits, six_digits, ten_digits};
pub use reading::{Stop, symbol};
pub use refusals::ReadRefusal;
