//! Files of lines: sources and sinks, what a line says, the column at which it is ill-formed, and texts.
#![tactic(auto)]

mod books;
mod calls;
mod evidence;
mod fault;
mod groups;
mod join;
mod laws;
mod receptions;
mod sentences;
mod sheets;
mod streams;
mod traffic;
mod worlds;

pub use books::{BookLine, book_line};
pub use byte_streams::{
    ByteSink, ByteSource, Failed, NoMemory, Sink, Source, Status, StdSink, StdSource, SureSink,
    SureSource, write_all,
};
pub use call_texts::{put_answer, put_answer_line, put_call};
pub use calls::{CallLine, call_line};
pub use fault::LineFault;
pub use join::{JoinLine, join_line};
pub use laws::{
    evidence_is_read, exchange_columns, one_book_line, one_call_line, one_exchange_line, one_line,
    one_point_line, one_sentence_line, one_stream_line,
};
pub use receptions::packed_reception;
pub use sentences::{SentenceLine, sentence_line};
pub use sheets::{put_evidence, put_evidence_line};
pub use streams::stream_line;
pub use traffic::joined_line;
pub use worlds::says_nothing;
