//! Where a program reads from and writes to: sources and sinks of bytes with faults of their own, in
//! memory and over the standard streams, and the exit status.
#![tactic(auto)]

mod exits;
mod failing;
mod standard;
mod streams;
mod sure;
mod whole;

pub use exits::Status;
pub use failing::{ByteSink, ByteSource};
pub use standard::{StdSink, StdSource, StdStream};
pub use std::alloc::AllocError as NoMemory;
pub use streams::{Failed, Sink, Source};
pub use sure::{SureSink, SureSource};
pub use whole::write_all;
