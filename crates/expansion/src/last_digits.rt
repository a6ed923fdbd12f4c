//! The specifiers of sets by their last two digits, as DSE sentences have them (this project's profile).
use crate::specifiers;

/// The enhanced position follows.
pub const ENHANCED_POSITION: u8 = specifiers::ENHANCED_POSITION % 100;

/// The speed follows.
pub const SPEED: u8 = specifiers::SPEED % 100;

/// The course follows.
pub const COURSE: u8 = specifiers::COURSE % 100;
