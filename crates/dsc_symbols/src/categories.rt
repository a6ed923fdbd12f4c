//! The categories of calls (ITU-R M.493, category).

/// Distress.
pub const DISTRESS: u8 = 112;

/// Routine.
pub const ROUTINE: u8 = 100;

/// Safety.
pub const SAFETY: u8 = 108;

/// Urgency.
pub const URGENCY: u8 = 110;
