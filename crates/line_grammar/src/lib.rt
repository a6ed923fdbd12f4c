//! Grammars of lines, readers of them that know the column at which a line is ill-formed, and the pieces that texts are made of.
#![tactic(auto)]

mod decimal;
mod laws;
mod numerals;
mod pieces;
mod reading;

pub use decimal::{LARGEST_NUMBER, free_number};
pub use laws::{
    grammars_are_read, growing_grammars_are_read, largest_number, written_lines_are_read,
};
pub use numerals::{fixed_number, fixed_number_to};
pub use pieces::{append, append_digits, append_number};
pub use reading::{Column, Left, begins_with, column, end, further, run, whole_word, word};
