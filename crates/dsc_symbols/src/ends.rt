//! The ends of sequence, and which of them each kind of call may have.

/// Acknowledge RQ: the call asks for an acknowledgement.
pub const ACKNOWLEDGE_RQ: u8 = 117;

/// Acknowledge BQ: the call is the acknowledgement.
pub const ACKNOWLEDGE_BQ: u8 = 122;

/// EOS: neither.
pub const EOS: u8 = 127;
