//! A start of a long stream, with the sheet of its facts.
use slot_evidence::Sheet;

/// A start of a stream: the origin, counted from the stream's first element, from -150 on; and the sheet of the facts
/// there.
#[derive(Clone, Copy, Debug, PartialEq, Eq)]
pub struct Start {
    pub at: i64,
    pub sheet: Sheet,
}
