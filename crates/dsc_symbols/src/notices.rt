//! The second telecommands: why a station can't comply, and what is asked for besides.
/// No reason given.
pub const NO_REASON: u8 = 100;

/// Congestion at the maritime switching centre.
pub const CONGESTION: u8 = 101;

/// Busy.
pub const BUSY: u8 = 102;

/// Queue indication.
pub const QUEUE: u8 = 103;

/// Station barred.
pub const STATION_BARRED: u8 = 104;

/// No operator available.
pub const NO_OPERATOR: u8 = 105;

/// Operator temporarily unavailable.
pub const OPERATOR_AWAY: u8 = 106;

/// Equipment disabled.
pub const EQUIPMENT_DISABLED: u8 = 107;

/// Unable to use the proposed channel.
pub const CHANNEL_UNUSABLE: u8 = 108;

/// Unable to use the proposed mode.
pub const MODE_UNUSABLE: u8 = 109;

/// Ships and aircraft of States that are not parties to an armed conflict.
pub const NEUTRAL_CRAFT: u8 = 110;

/// Medical transports.
pub const MEDICAL_TRANSPORT: u8 = 111;

/// Pay-phone, public call office.
pub const PUBLIC_CALL_OFFICE: u8 = 112;

/// Facsimile.
pub const FACSIMILE: u8 = 113;
