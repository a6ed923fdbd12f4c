//! Values that are one of a few: category, end of sequence and band.
ghost use Rattle.std.specs.Prelude.{◌≡◌};
ghost use Rattle.call_values.specs.Ends.{end_symbol};

use dsc_symbols::ends;

/// The category of a call that is not a distress call (ITU-R M.493, category).
#[derive(Clone, Copy, Debug, PartialEq, Eq)]
pub enum Category {
    /// Symbol 100.
    Routine,
    /// Symbol 108.
    Safety,
    /// Symbol 110.
    Urgency,
}

/// The end of sequence of a call, which says whether the call is to be acknowledged (ITU-R M.493, end of sequence).
#[derive(Clone, Copy, Debug, PartialEq, Eq)]
pub enum End {
    /// The call asks for an acknowledgement, symbol 117.
    Ask,
    /// The call is the acknowledgement, symbol 122.
    Reply,
    /// Neither, symbol 127.
    Plain,
}

impl End {
    /// The symbol of the end of sequence (ITU-R M.493, end of sequence).
    pub fn symbol(&self) -> u8
        ensures { result ≡ end_symbol self.now }
    {
        match self {
            End::Ask => ends::ACKNOWLEDGE_RQ,
            End::Reply => ends::ACKNOWLEDGE_BQ,
            End::Plain => ends::EOS,
        }
    }
}

/// The band in which a coast station works.
#[derive(Clone, Copy, Debug, PartialEq, Eq)]
pub enum Band {
    Mf,
    Hf,
    Vhf,
}
