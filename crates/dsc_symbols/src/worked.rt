//! A distress alert worked by hand, for examples and tests: the ship 338040079 is disabled and adrift at 42 31 N 083 12
//! W, at 20:19 UTC, and telephony is to follow.

/// Its list: the format specifier twice, the fields, the end of sequence, the error check character, and the end of
/// sequence twice more (ITU-R M.493, composition of call sequences).
pub const ALERT: [u8; 20] = [
    112, 112, 33, 80, 40, 7, 90, 106, 14, 23, 10, 83, 12, 20, 19, 100, 127, 78, 127, 127,
];

/// The symbols of its 52 slots on air, DX and RX in turn (ITU-R M.493, time diversity).
pub const ALERT_SLOTS: [u8; 52] = [
    125, 111, 125, 110, 125, 109, 125, 108, 125, 107, 125, 106, 112, 105, 112, 104, 33, 112, 80,
    112, 40, 33, 7, 80, 90, 40, 106, 7, 14, 90, 23, 106, 10, 14, 83, 23, 12, 10, 20, 83, 19, 12,
    100, 20, 127, 19, 78, 100, 127, 127, 127, 78,
];

/// The slots that are lost of it where the RX copies alone are left, but for that of place 7.
pub const LOST_DX_AND_PLACE_7: [usize; 21] = [
    12, 14, 16, 18, 20, 22, 24, 26, 28, 30, 31, 32, 34, 36, 38, 40, 42, 44, 46, 48, 50,
];

/// The lost slots of the alert where, after slot 15, place 7 alone is left.
pub const LOST_BUT_PLACE_7: [usize; 35] = [
    16, 17, 18, 19, 20, 21, 22, 23, 24, 25, 27, 28, 29, 30, 31, 32, 33, 34, 35, 36, 37, 38, 39, 40,
    41, 42, 43, 44, 45, 46, 47, 48, 49, 50, 51,
];
