//! The bounds of values, each named once: definitions, code and the grammars of texts take them from here.
ghost use Rattle.std.specs.Prelude.{◌≡◌, ◌+◌, ◌∷◌, []};

/// The last identity: nine digits (ITU-R M.585).
pub const LAST_IDENTITY: u32 = 999_999_999;

/// The identities, as ranges of numbers.
pub const IDENTITIES: [(u64, u64); 1] = [(0, 999_999_999)];

/// The shortest wait from one attempt of a distress alert to the next, in milliseconds (ITU-R M.541, distress alert
/// attempts).
pub const SHORTEST_ALERT_DELAY: u32 = 210_000;

/// The longest wait from one attempt of a distress alert to the next, in milliseconds.
pub const LONGEST_ALERT_DELAY: u32 = 270_000;

/// The shortest wait from a distress alert to its acknowledgement by a coast station on MF or HF, in milliseconds
/// (ITU-R M.541, acknowledgement by coast stations).
pub const SHORTEST_COAST_DELAY: u32 = 60_000;

/// The longest wait from a distress alert to its acknowledgement by a coast station on MF or HF, in milliseconds.
pub const LONGEST_COAST_DELAY: u32 = 165_000;

/// The last frequency in hundreds of hertz (ITU-R M.493, frequency or channel information).
pub const LAST_HUNDREDS: u32 = 299_999;

/// The last MF or HF channel: five digits.
pub const LAST_HF_CHANNEL: u32 = 99_999;

/// The last VHF channel: four digits.
pub const LAST_VHF_CHANNEL: u16 = 9_999;

/// The last frequency in tens of hertz: seven digits (this project's profile).
pub const LAST_TENS: u32 = 9_999_999;

/// What an MF or HF channel is added to in a call: a 3 in front of its five digits.
pub const HF_CHANNELS: u32 = 300_000;

/// What a VHF channel is added to in a call: 90 in front of its four digits.
pub const VHF_CHANNELS: u32 = 900_000;

/// What a frequency in tens of hertz is added to in a call: a 4 in front of its seven digits (this project's profile).
pub const TENS: u32 = 40_000_000;

/// The numbers of six digits that a frequency or channel field may have: hundreds of hertz, MF and HF channels, VHF
/// channels.
pub const SIX_DIGITS: [(u64, u64); 3] = [(0, 299_999), (300_000, 399_999), (900_000, 909_999)];

/// The numbers of eight digits that a frequency field may have: tens of hertz.
pub const EIGHT_DIGITS: [(u64, u64); 1] = [(40_000_000, 49_999_999)];

/// The last second after the beginning of 1970 from which moments may count (this project's profile).
pub const LAST_BASE: u64 = 9_999_999_999;

/// The law that these are the bounds of values. It does nothing.
pub fn bounds_of_values()
    ensures last_identity { LAST_IDENTITY ≡ 999999999 }
    ensures identities { IDENTITIES ≡ (0, LAST_IDENTITY) ∷ [] }
    ensures shortest_alert_delay { SHORTEST_ALERT_DELAY ≡ 210000 }
    ensures longest_alert_delay { LONGEST_ALERT_DELAY ≡ 270000 }
    ensures shortest_coast_delay { SHORTEST_COAST_DELAY ≡ 60000 }
    ensures longest_coast_delay { LONGEST_COAST_DELAY ≡ 165000 }
    ensures last_hundreds { LAST_HUNDREDS ≡ 299999 }
    ensures last_hf_channel { LAST_HF_CHANNEL ≡ 99999 }
    ensures last_vhf_channel { LAST_VHF_CHANNEL ≡ 9999 }
    ensures last_tens { LAST_TENS ≡ 9999999 }
    ensures hf_channels { HF_CHANNELS ≡ 300000 }
    ensures vhf_channels { VHF_CHANNELS ≡ 900000 }
    ensures tens { TENS ≡ 40000000 }
    ensures six_digits { SIX_DIGITS
        ≡ (0, LAST_HUNDREDS) ∷ (HF_CHANNELS, HF_CHANNELS + LAST_HF_CHANNEL)
        ∷ (VHF_CHANNELS, VHF_CHANNELS + LAST_VHF_CHANNEL) ∷ [] }
    ensures eight_digits { EIGHT_DIGITS ≡ (TENS, TENS + LAST_TENS) ∷ [] }
    ensures last_base { LAST_BASE ≡ 9999999999 }
{}
