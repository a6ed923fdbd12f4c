//! The natures of distress (ITU-R M.493, nature of distress).

/// Fire, explosion.
pub const FIRE_OR_EXPLOSION: u8 = 100;

/// Flooding.
pub const FLOODING: u8 = 101;

/// Collision.
pub const COLLISION: u8 = 102;

/// Grounding.
pub const GROUNDING: u8 = 103;

/// Listing, in danger of capsizing.
pub const LISTING: u8 = 104;

/// Sinking.
pub const SINKING: u8 = 105;

/// Disabled and adrift.
pub const DISABLED_AND_ADRIFT: u8 = 106;

/// Undesignated distress.
pub const UNDESIGNATED: u8 = 107;

/// Abandoning ship.
pub const ABANDONING_SHIP: u8 = 108;

/// Piracy or armed robbery attack.
pub const PIRACY: u8 = 109;

/// Man overboard.
pub const MAN_OVERBOARD: u8 = 110;

/// Emission of an emergency position-indicating radiobeacon.
pub const EPIRB_EMISSION: u8 = 112;
