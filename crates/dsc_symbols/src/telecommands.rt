//! The first telecommands, and the subsequent communications of distress calls.
/// F3E or G3E telephony, all modes.
pub const ALL_MODES: u8 = 100;

/// F3E or G3E telephony, duplex.
pub const DUPLEX: u8 = 101;

/// Polling.
pub const POLLING: u8 = 103;

/// Unable to comply.
pub const UNABLE_TO_COMPLY: u8 = 104;

/// Data.
pub const DATA: u8 = 106;

/// J3E telephony.
pub const J3E: u8 = 109;

/// Distress acknowledgement.
pub const DISTRESS_ACKNOWLEDGEMENT: u8 = 110;

/// Distress relay.
pub const DISTRESS_RELAY: u8 = 112;

/// Teletype with forward error correction.
pub const TTY_FEC: u8 = 113;

/// Teletype with automatic requests for repetition.
pub const TTY_ARQ: u8 = 115;

/// Test.
pub const TEST: u8 = 118;

/// Ship position.
pub const SHIP_POSITION: u8 = 121;
