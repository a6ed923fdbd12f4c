//! Numbers in their ranges: identities, natures of distress, telecommands and delays.
ghost use Rattle.std.specs.Prelude.{◌≡◌, ◌↔◌, ℕ, IfSome, IsSome};
ghost use Rattle.dsc_symbols.specs.Natures.{IsNature};
ghost use Rattle.dsc_symbols.specs.Telecommands.{IsFirst, IsSecond, IsComm};
ghost use Rattle.call_values.specs.Identity.{IsMmsi};
ghost use Rattle.call_values.specs.Delays.{IsAlertDelay, IsCoastDelay};

use crate::bounds::{
    LAST_IDENTITY, LONGEST_ALERT_DELAY, LONGEST_COAST_DELAY, SHORTEST_ALERT_DELAY,
    SHORTEST_COAST_DELAY,
};
use dsc_symbols::sets::{is_comm, is_first, is_nature, is_second};
use std::marker::Model;

/// A maritime mobile service identity: a number of nine digits, leading zeros included.
#[derive(Clone, Copy, Debug, PartialEq, Eq)]
pub struct Mmsi {
    number: u32,
}

impl Model for Mmsi {
    ghost Value = { ℕ };

    ghost view = { λ a. a.number };

    ghost invariant = { λ a. IsMmsi a.number };

    ghost inverse = { λ n. record { number = n } };
}

impl Mmsi {
    /// The identity with this number, and `None` exactly where it passes 999,999,999.
    pub fn new(n: u32) -> Option<Mmsi>
        ensures value { IfSome result (λ v. v ≡ n) }
        ensures some { IsSome result ↔ IsMmsi n }
    {
        if n <= LAST_IDENTITY {
            Some(Mmsi { number: n })
        } else {
            None
        }
    }

    /// The number that the identity was made from.
    pub fn number(&self) -> u32
        ensures value { result ≡ self.now }
        ensures range { IsMmsi result }
    {
        self.number
    }
}

/// The symbol of a nature of distress (ITU-R M.493, messages of a distress alert): 100 fire or explosion, 101 flooding,
/// 102 collision, 103 grounding, 104 listing, 105 sinking, 106 disabled and adrift, 107 undesignated, 108 abandoning
/// ship, 109 piracy, 110 man overboard or 112 EPIRB emission.
#[derive(Clone, Copy, Debug, PartialEq, Eq)]
pub struct Nature {
    number: u8,
}

impl Model for Nature {
    ghost Value = { ℕ };

    ghost view = { λ a. a.number };

    ghost invariant = { λ a. IsNature a.number };

    ghost inverse = { λ n. record { number = n } };
}

impl Nature {
    /// The nature of distress with this symbol, and `None` exactly where there is none.
    pub fn new(n: u8) -> Option<Nature>
        ensures value { IfSome result (λ v. v ≡ n) }
        ensures some { IsSome result ↔ IsNature n }
    {
        if is_nature(n) {
            Some(Nature { number: n })
        } else {
            None
        }
    }

    /// The symbol that the nature was made from.
    pub fn number(&self) -> u8
        ensures value { result ≡ self.now }
        ensures range { IsNature result }
    {
        self.number
    }
}

/// The symbol of a first telecommand (ITU-R M.493, telecommands): 100 F3E/G3E all modes, 101 F3E/G3E duplex, 103
/// polling, 104 unable to comply, 106 data, 109 J3E, 113 TTY-FEC, 115 TTY-ARQ or 126 no information. Distress
/// acknowledgement (110), distress relay (112), test (118) and ship position (121) belong to calls of their own.
#[derive(Clone, Copy, Debug, PartialEq, Eq)]
pub struct First {
    number: u8,
}

impl Model for First {
    ghost Value = { ℕ };

    ghost view = { λ a. a.number };

    ghost invariant = { λ a. IsFirst a.number };

    ghost inverse = { λ n. record { number = n } };
}

impl First {
    /// The first telecommand with this symbol, and `None` exactly where there is none.
    pub fn new(n: u8) -> Option<First>
        ensures value { IfSome result (λ v. v ≡ n) }
        ensures some { IsSome result ↔ IsFirst n }
    {
        if is_first(n) {
            Some(First { number: n })
        } else {
            None
        }
    }

    /// The symbol that the telecommand was made from.
    pub fn number(&self) -> u8
        ensures value { result ≡ self.now }
        ensures range { IsFirst result }
    {
        self.number
    }
}

/// The symbol of a second telecommand (ITU-R M.493, telecommands): 100 to 109 the reasons why a station is unable to
/// comply and the notices that go with them, 110 to 113 further notices, or 126 no information.
#[derive(Clone, Copy, Debug, PartialEq, Eq)]
pub struct Second {
    number: u8,
}

impl Model for Second {
    ghost Value = { ℕ };

    ghost view = { λ a. a.number };

    ghost invariant = { λ a. IsSecond a.number };

    ghost inverse = { λ n. record { number = n } };
}

impl Second {
    /// The second telecommand with this symbol, and `None` exactly where there is none.
    pub fn new(n: u8) -> Option<Second>
        ensures value { IfSome result (λ v. v ≡ n) }
        ensures some { IsSome result ↔ IsSecond n }
    {
        if is_second(n) {
            Some(Second { number: n })
        } else {
            None
        }
    }

    /// The symbol that the telecommand was made from.
    pub fn number(&self) -> u8
        ensures value { result ≡ self.now }
        ensures range { IsSecond result }
    {
        self.number
    }
}

/// The symbol of the kind of communication that is to follow a distress call (ITU-R M.493, telecommands): 100 F3E/G3E
/// all modes, 101 F3E/G3E duplex, 106 data, 109 J3E, 113 TTY-FEC, 115 TTY-ARQ or 126 no information.
#[derive(Clone, Copy, Debug, PartialEq, Eq)]
pub struct Comm {
    number: u8,
}

impl Model for Comm {
    ghost Value = { ℕ };

    ghost view = { λ a. a.number };

    ghost invariant = { λ a. IsComm a.number };

    ghost inverse = { λ n. record { number = n } };
}

impl Comm {
    /// The subsequent communications with this symbol, and `None` exactly where there are none.
    pub fn new(n: u8) -> Option<Comm>
        ensures value { IfSome result (λ v. v ≡ n) }
        ensures some { IsSome result ↔ IsComm n }
    {
        if is_comm(n) {
            Some(Comm { number: n })
        } else {
            None
        }
    }

    /// The symbol that the subsequent communications were made from.
    pub fn number(&self) -> u8
        ensures value { result ≡ self.now }
        ensures range { IsComm result }
    {
        self.number
    }
}

/// The wait from one attempt of a distress alert to the next, in milliseconds: 210,000 to 270,000, which is 3.5 to 4.5
/// minutes (ITU-R M.541, distress alert attempts).
#[derive(Clone, Copy, Debug, PartialEq, Eq)]
pub struct AlertDelay {
    number: u32,
}

impl Model for AlertDelay {
    ghost Value = { ℕ };

    ghost view = { λ a. a.number };

    ghost invariant = { λ a. IsAlertDelay a.number };

    ghost inverse = { λ n. record { number = n } };
}

impl AlertDelay {
    /// The delay of so many milliseconds, and `None` exactly outside 210,000 to 270,000.
    pub fn new(milliseconds: u32) -> Option<AlertDelay>
        ensures value { IfSome result (λ v. v ≡ milliseconds) }
        ensures some { IsSome result ↔ IsAlertDelay milliseconds }
    {
        match milliseconds {
            SHORTEST_ALERT_DELAY..=LONGEST_ALERT_DELAY => Some(AlertDelay {
                number: milliseconds,
            }),
            _ => None,
        }
    }

    /// The milliseconds of the delay.
    pub fn number(&self) -> u32
        ensures value { result ≡ self.now }
        ensures range { IsAlertDelay result }
    {
        self.number
    }
}

/// The wait from a distress alert to its acknowledgement by a coast station on MF or HF, in milliseconds: 60,000 to
/// 165,000, which is 1 to 2.75 minutes (ITU-R M.541, acknowledgement by coast stations).
#[derive(Clone, Copy, Debug, PartialEq, Eq)]
pub struct CoastDelay {
    number: u32,
}

impl Model for CoastDelay {
    ghost Value = { ℕ };

    ghost view = { λ a. a.number };

    ghost invariant = { λ a. IsCoastDelay a.number };

    ghost inverse = { λ n. record { number = n } };
}

impl CoastDelay {
    /// The delay of so many milliseconds, and `None` exactly outside 60,000 to 165,000.
    pub fn new(milliseconds: u32) -> Option<CoastDelay>
        ensures value { IfSome result (λ v. v ≡ milliseconds) }
        ensures some { IsSome result ↔ IsCoastDelay milliseconds }
    {
        match milliseconds {
            SHORTEST_COAST_DELAY..=LONGEST_COAST_DELAY => Some(CoastDelay {
                number: milliseconds,
            }),
            _ => None,
        }
    }

    /// The milliseconds of the delay.
    pub fn number(&self) -> u32
        ensures value { result ≡ self.now }
        ensures range { IsCoastDelay result }
    {
        self.number
    }
}
