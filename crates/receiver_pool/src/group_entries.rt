//! What a batch holds, and what it showed.

use slot_evidence::{Reception, Sheet};

/// A reception, with the number of its group.
#[derive(Debug, Drop)]
pub struct GroupReception {
    pub group: usize,
    pub reception: Reception,
}

/// What was shown of a group, with its number.
#[derive(Clone, Copy, Debug, PartialEq, Eq)]
pub struct GroupSheet {
    pub group: usize,
    pub sheet: Sheet,
}
