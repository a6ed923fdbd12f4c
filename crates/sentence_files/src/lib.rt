//! Files of sentences: the command `sentences`, which writes the sentences of calls and verdicts on sentences; and the command `book`, which
//! writes the book of casualties that logs of sentences give.
#![tactic(auto)]

mod book_laws;
mod books;
mod command;
mod laws;

pub use book_laws::{
    accepted_sentences_determine_text, logs_determine_output, no_output_is_lacking,
};
pub use books::Logs;
pub use command::Sentences;
pub use laws::{inputs_have_outputs, lines_determine_output};
