//! Symbols that messages have in place of values, or before them.

/// No information, in place of a telecommand or of a character of a message.
pub const NO_INFORMATION: u8 = 126;

/// A position follows, in a message to one station or of a ship's position.
pub const POSITION_FOLLOWS: u8 = 55;

/// Each character of a position that is not known.
pub const UNKNOWN_POSITION: u8 = 99;

/// Each character of a time that is not known.
pub const UNKNOWN_TIME: u8 = 88;

/// A VHF channel follows, in a frequency or channel field.
pub const VHF_CHANNEL: u8 = 90;
