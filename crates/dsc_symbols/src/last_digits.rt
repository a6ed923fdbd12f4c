//! Symbols by their last two digits, as DSC sentences have them (this project's profile).
use crate::{categories, formats, telecommands};

/// The format specifiers.
pub const FORMATS: [u8; 5] = [
    formats::DISTRESS % 100,
    formats::ALL_SHIPS % 100,
    formats::GROUP % 100,
    formats::INDIVIDUAL % 100,
    formats::AREA % 100,
];

/// The categories.
pub const CATEGORIES: [u8; 4] = [
    categories::ROUTINE % 100,
    categories::SAFETY % 100,
    categories::URGENCY % 100,
    categories::DISTRESS % 100,
];

/// The format specifier of a distress alert.
pub const ALERT: u8 = formats::DISTRESS % 100;

/// The category distress.
pub const DISTRESS: u8 = categories::DISTRESS % 100;

/// The telecommand of a distress acknowledgement.
pub const DISTRESS_ACKNOWLEDGEMENT: u8 = telecommands::DISTRESS_ACKNOWLEDGEMENT % 100;

/// The telecommand of a distress relay.
pub const DISTRESS_RELAY: u8 = telecommands::DISTRESS_RELAY % 100;
