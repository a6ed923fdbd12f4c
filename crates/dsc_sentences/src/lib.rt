//! DSC and DSE sentences: the sentences of calls and of expansions, printed and read (the frame is that of IEC 61162-1;
//! the fields are this project's profile).
#![tactic(auto)]

mod call_printing;
mod call_sentences;
mod calls;
mod decimals;
mod dsc;
mod dse;
mod dse_printing;
mod dse_reading;
mod expansions;
mod fields;
mod hearing;
mod laws;
mod printing;
mod reading;
mod taking;
mod verdicts;

pub use call_sentences::put_sentences;
pub use calls::of_call;
pub use dsc::{DscFields, DscSentence};
pub use dse::{DseFields, DseSentence, Flag};
pub use dse_printing::print_dse;
pub use dse_reading::read_dse;
pub use expansions::of_expansion;
pub use hearing::sentence_on;
pub use laws::{
    sentences_are_read_back, texts_tell_sentences_apart, what_is_read_is_printed_again,
};
pub use printing::print;
pub use reading::read;
pub use sentence_frame::SentenceRefusal;
pub use verdicts::{Verdict, put_verdict, verdict_on};
