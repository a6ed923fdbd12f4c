//! Streams and commands, file by file.

mod board;
mod engine;
mod made;
mod replays;
mod streams;
mod usage;
mod watching;
mod words;
