//! Letters: the sets of symbols that may be at a place.
ghost use Rattle.std.specs.Prelude.{◌↔◌, IsTrue};
ghost use Rattle.symbol_reader.specs.Letters.{Allows};

use dsc_symbols::messages::{NO_INFORMATION, POSITION_FOLLOWS, VHF_CHANNEL};
use dsc_symbols::sets::{is_category, is_comm, is_end, is_first, is_format, is_nature, is_second};
use dsc_symbols::telecommands::{SHIP_POSITION, TEST};

/// The symbols that may be at a place (ITU-R M.493, composition of calls).
#[derive(Clone, Copy, Debug, PartialEq, Eq)]
pub enum Letter {
    /// This symbol alone.
    Exactly(u8),
    /// The numbers from 0 to this one.
    UpTo(u8),
    /// The numbers from 0 to the first, and the second by itself.
    UpToOr(u8, u8),
    /// Two decimal digits, tens of at most the first and ones of at most the second.
    Digits(u8, u8),
    /// The natures of distress.
    Nature,
    /// The subsequent communications of a distress call.
    Comm,
    /// This symbol or that one.
    Either(u8, u8),
    /// One of these three symbols.
    OneOf(u8, u8, u8),
    /// The format specifiers.
    Format,
    /// The categories, distress among them.
    Category,
    /// The first telecommands of calls that have no form of their own.
    First,
    /// These, and those of a test and of a ship's position.
    FirstToOne,
    /// The second telecommands.
    Second,
    /// The first characters of a frequency or channel field.
    Field,
    /// These, and that of a position.
    Message,
    /// The ends of sequence.
    End,
}

impl Letter {
    /// Whether the symbol may be there.
    #[inline(always)]
    pub fn allows(&self, symbol: u8) -> bool
        ensures { IsTrue result ↔ Allows self.now symbol }
    {
        match *self {
            Letter::Exactly(only) => symbol == only,
            Letter::UpTo(most) => symbol <= most,
            Letter::UpToOr(most, other) => symbol <= most || symbol == other,
            Letter::Digits(tens, ones) => symbol / 10 <= tens && symbol % 10 <= ones,
            Letter::Nature => is_nature(symbol),
            Letter::Comm => is_comm(symbol),
            Letter::Either(one, other) => symbol == one || symbol == other,
            Letter::OneOf(one, other, third) => {
                symbol == one || symbol == other || symbol == third
            }
            Letter::Format => is_format(symbol),
            Letter::Category => is_category(symbol),
            Letter::First => is_first(symbol),
            Letter::FirstToOne => matches!(symbol, TEST | SHIP_POSITION) || is_first(symbol),
            Letter::Second => is_second(symbol),
            Letter::Field => is_field(symbol),
            Letter::Message => symbol == POSITION_FOLLOWS || is_field(symbol),
            Letter::End => is_end(symbol),
        }
    }
}

/// Whether a symbol may begin a frequency or channel field: 0 to 49, 90 for a VHF channel, or 126 for no information.
fn is_field(symbol: u8) -> bool
    ensures { IsTrue result ↔ Allows Letter.Field symbol }
{
    symbol <= 49 || matches!(symbol, VHF_CHANNEL | NO_INFORMATION)
}
