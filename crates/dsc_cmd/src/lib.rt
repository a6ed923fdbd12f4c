//! The commands of `dsc`.
#![tactic(auto)]

mod laws;
mod making;
mod promises;
mod running;

pub use byte_streams::{
    ByteSink, ByteSource, Failed, NoMemory, Sink, Source, Status, StdSink, StdSource, SureSink,
    SureSource,
};
pub use command_line::Plan;
pub use laws::{
    encoded_calls_are_reported, facts_determine_outputs, inputs_have_an_output,
    inputs_have_one_output, no_output_is_lacking,
};
pub use promises::runs_of_words;
pub use running::run;
pub use slot_join::{
    alike_facts_have_one_answer, intact_copies_report_the_call, sent_call_is_answered,
};
