//! The format specifiers (ITU-R M.493, format specifier).

/// A distress alert.
pub const DISTRESS: u8 = 112;

/// A call to all ships.
pub const ALL_SHIPS: u8 = 116;

/// A call to the ships in a geographical area.
pub const AREA: u8 = 102;

/// A call to the ships of a group.
pub const GROUP: u8 = 114;

/// A call to one station.
pub const INDIVIDUAL: u8 = 120;
