//! Texts of calls and of answers.
#![tactic(auto)]

mod answers;
mod calls;
mod expansions;
mod extras;
mod fields;
mod forms;
mod laws;
mod line;
mod reading;
mod sections;
mod tails;
mod tokens;
mod values;

pub use answers::{append_answer_line, put_answer, put_answer_line};
pub use calls::{append_call, put_call};
pub use forms::any_call;
pub use laws::{
    bare_call_texts_are_read, call_texts_are_read, expansions_are_refused_at_their_blank,
    texts_tell_calls_apart,
};
pub use line::{end, take, whole_word, word};
pub use reading::{extra_of, read_bare_call, read_call, sets_are_lawful};
pub use sections::field;
pub use tails::Tail;
pub use tokens::Token;
pub use values::append_ship_in_distress;
