//! The frame of sentences (IEC 61162-1): the head, fields after commas, and the checksum; which texts a field accepts,
//! and why bytes are no sentence.
#![tactic(auto)]

mod fields;
mod frames;
mod laws;
mod refusals;
mod writing;

pub use fields::{
    code, digits, digits_up_to, letter, next_digits, number, perhaps_code, perhaps_digits,
    perhaps_letter, perhaps_number,
};
pub use frames::{LONGEST_SENTENCE, fields_of, next_text};
pub use refusals::SentenceRefusal;
pub use writing::{
    append_digit_text, append_digits_field, append_field, append_number_field,
    append_perhaps_digits_field, begin_sentence, close, hexadecimal, widened,
};
