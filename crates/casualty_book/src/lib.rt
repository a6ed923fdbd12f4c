//! The casualty book: who was in distress, and who acknowledged and relayed it, as sentences say (this project's
//! profile).
#![tactic(auto)]

mod books;
mod laws;
mod packing;
mod rows;
mod sentences;
mod texts;

pub use books::Book;
pub use laws::{books_with_the_same_rows_are_one_list, rows_have_a_book, union_is_of_sets};
pub use rows::{BookKind, BookRow};
pub use sentences::row_of;
pub use texts::put_row;
