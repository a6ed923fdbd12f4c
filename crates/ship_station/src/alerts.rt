//! The ship's own distress alert, without what each attempt adds.
use call_values::{Comm, Nature};

/// What the ship's own distress alert says of the distress. Who it is and where is added at each attempt.
#[derive(Clone, Copy, Debug, PartialEq, Eq)]
pub struct OwnAlert {
    pub nature: Nature,
    /// The kind of communication that is to follow.
    pub comm: Comm,
}
