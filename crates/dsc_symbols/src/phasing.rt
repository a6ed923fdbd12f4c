//! The symbols of the phasing sequence (ITU-R M.493, phasing sequence).

/// The phasing symbol of each DX slot.
pub const DX: u8 = 125;

/// The phasing symbol of an RX slot, RX 7.
pub const RX_7: u8 = 111;

/// The phasing symbol of an RX slot, RX 6.
pub const RX_6: u8 = 110;

/// The phasing symbol of an RX slot, RX 5.
pub const RX_5: u8 = 109;

/// The phasing symbol of an RX slot, RX 4.
pub const RX_4: u8 = 108;

/// The phasing symbol of an RX slot, RX 3.
pub const RX_3: u8 = 107;

/// The phasing symbol of an RX slot, RX 2.
pub const RX_2: u8 = 106;

/// The phasing symbol of an RX slot, RX 1.
pub const RX_1: u8 = 105;

/// The phasing symbol of an RX slot, RX 0.
pub const RX_0: u8 = 104;
