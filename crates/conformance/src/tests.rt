//! Worked rows, file by file.

mod cuts;
mod encoding;
mod exchanges;
mod expansions;
mod failures;
mod forms;
mod gates;
mod groups;
mod joins;
mod logs;
mod made;
mod receptions;
mod replays;
mod sentences;
mod sheets;
mod streams;
mod streams_captured;
mod watches;
mod workers;
mod written;
