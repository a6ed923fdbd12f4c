//! The symbols that each field of a call may have, as ranges for texts and as tests.
ghost use Rattle.std.specs.Prelude.{◌↔◌, IsTrue};
ghost use Rattle.dsc_symbols.specs.Formats.{IsFormat};
ghost use Rattle.dsc_symbols.specs.Categories.{IsCategory};
ghost use Rattle.dsc_symbols.specs.Ends.{IsEnd};
ghost use Rattle.dsc_symbols.specs.Natures.{IsNature};
ghost use Rattle.dsc_symbols.specs.Telecommands.{IsFirst, IsSecond, IsComm};

use crate::messages::NO_INFORMATION;
use crate::telecommands::{
    ALL_MODES, DATA, DUPLEX, J3E, POLLING, TTY_ARQ, TTY_FEC, UNABLE_TO_COMPLY,
};
use crate::{categories, ends, formats, natures, notices};

/// The categories of calls that are no distress calls, in ranges of symbols.
pub const BELOW_DISTRESS: [(u64, u64); 3] = [
    (categories::ROUTINE as u64, categories::ROUTINE as u64),
    (categories::SAFETY as u64, categories::SAFETY as u64),
    (categories::URGENCY as u64, categories::URGENCY as u64),
];

/// The ends of sequence, in ranges of symbols.
pub const ENDS: [(u64, u64); 3] = [
    (ends::ACKNOWLEDGE_RQ as u64, ends::ACKNOWLEDGE_RQ as u64),
    (ends::ACKNOWLEDGE_BQ as u64, ends::ACKNOWLEDGE_BQ as u64),
    (ends::EOS as u64, ends::EOS as u64),
];

/// The ends of sequence of a distress relay, in ranges of symbols.
pub const RELAY_ENDS: [(u64, u64); 2] = [
    (ends::ACKNOWLEDGE_RQ as u64, ends::ACKNOWLEDGE_RQ as u64),
    (ends::EOS as u64, ends::EOS as u64),
];

/// The ends of sequence of a test and of the reply to one, in ranges of symbols.
pub const TEST_ENDS: [(u64, u64); 2] = [
    (ends::ACKNOWLEDGE_RQ as u64, ends::ACKNOWLEDGE_RQ as u64),
    (ends::ACKNOWLEDGE_BQ as u64, ends::ACKNOWLEDGE_BQ as u64),
];

/// The natures of distress, in ranges of symbols.
pub const NATURES: [(u64, u64); 2] = [
    (
        natures::FIRE_OR_EXPLOSION as u64,
        natures::MAN_OVERBOARD as u64,
    ),
    (
        natures::EPIRB_EMISSION as u64,
        natures::EPIRB_EMISSION as u64,
    ),
];

/// The first telecommands of calls that have no form of their own, in ranges of symbols.
pub const FIRSTS: [(u64, u64); 7] = [
    (ALL_MODES as u64, DUPLEX as u64),
    (POLLING as u64, UNABLE_TO_COMPLY as u64),
    (DATA as u64, DATA as u64),
    (J3E as u64, J3E as u64),
    (TTY_FEC as u64, TTY_FEC as u64),
    (TTY_ARQ as u64, TTY_ARQ as u64),
    (NO_INFORMATION as u64, NO_INFORMATION as u64),
];

/// The subsequent communications of a distress call, in ranges of symbols.
pub const COMMS: [(u64, u64); 6] = [
    (ALL_MODES as u64, DUPLEX as u64),
    (DATA as u64, DATA as u64),
    (J3E as u64, J3E as u64),
    (TTY_FEC as u64, TTY_FEC as u64),
    (TTY_ARQ as u64, TTY_ARQ as u64),
    (NO_INFORMATION as u64, NO_INFORMATION as u64),
];

/// The second telecommands, in ranges of symbols.
pub const SECONDS: [(u64, u64); 2] = [
    (notices::NO_REASON as u64, notices::FACSIMILE as u64),
    (NO_INFORMATION as u64, NO_INFORMATION as u64),
];

/// Whether calls begin with this symbol (ITU-R M.493, format specifier).
pub fn is_format(symbol: u8) -> bool
    ensures { IsTrue result ↔ IsFormat symbol }
{
    matches!(
        symbol,
        formats::DISTRESS
            | formats::ALL_SHIPS
            | formats::AREA
            | formats::GROUP
            | formats::INDIVIDUAL
    )
}

/// Whether this is the symbol of a category, distress among them (ITU-R M.493, category).
pub fn is_category(symbol: u8) -> bool
    ensures { IsTrue result ↔ IsCategory symbol }
{
    matches!(
        symbol,
        categories::DISTRESS | categories::ROUTINE | categories::SAFETY | categories::URGENCY
    )
}

/// Whether this is an end of sequence (ITU-R M.493, end of sequence).
pub fn is_end(symbol: u8) -> bool
    ensures { IsTrue result ↔ IsEnd symbol }
{
    matches!(
        symbol,
        ends::ACKNOWLEDGE_RQ | ends::ACKNOWLEDGE_BQ | ends::EOS
    )
}

/// Whether this is the symbol of a nature of distress (ITU-R M.493, nature of distress).
pub fn is_nature(symbol: u8) -> bool
    ensures { IsTrue result ↔ IsNature symbol }
{
    matches!(
        symbol,
        natures::FIRE_OR_EXPLOSION..=natures::MAN_OVERBOARD | natures::EPIRB_EMISSION
    )
}

/// Whether this is a first telecommand of a call that has no form of its own (ITU-R M.493, telecommands).
pub fn is_first(symbol: u8) -> bool
    ensures { IsTrue result ↔ IsFirst symbol }
{
    matches!(
        symbol,
        ALL_MODES
            | DUPLEX
            | POLLING
            | UNABLE_TO_COMPLY
            | DATA
            | J3E
            | TTY_FEC
            | TTY_ARQ
            | NO_INFORMATION
    )
}

/// Whether this is the symbol of subsequent communications (ITU-R M.493, telecommands).
pub fn is_comm(symbol: u8) -> bool
    ensures { IsTrue result ↔ IsComm symbol }
{
    matches!(
        symbol,
        ALL_MODES | DUPLEX | DATA | J3E | TTY_FEC | TTY_ARQ | NO_INFORMATION
    )
}

/// Whether this is a second telecommand (ITU-R M.493, telecommands).
pub fn is_second(symbol: u8) -> bool
    ensures { IsTrue result ↔ IsSecond symbol }
{
    matches!(
        symbol,
        notices::NO_REASON..=notices::FACSIMILE | NO_INFORMATION
    )
}
