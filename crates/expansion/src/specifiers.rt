//! The specifiers of the sets of an expansion: this project's profile, after ITU-R M.821.

/// The enhanced position follows.
pub const ENHANCED_POSITION: u8 = 100;

/// The speed follows.
pub const SPEED: u8 = 102;

/// The course follows.
pub const COURSE: u8 = 103;
