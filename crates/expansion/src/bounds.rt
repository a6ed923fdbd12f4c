//! The bounds of the sets of an expansion, each named once: this project's profile.

/// The last enhanced position: eight digits, four of decimal minutes of latitude and four of longitude.
pub const LAST_ENHANCEMENT: u32 = 99_999_999;

/// The last speed, in tenths of a knot: four digits.
pub const LAST_SPEED: u32 = 9_999;

/// The last course, in tenths of a degree.
pub const LAST_COURSE: u32 = 3_599;
