//! A set of an expansion: left out, without information, or digits.
ghost use Rattle.std.specs.Prelude.{◌≡◌, ◌↔◌, IsTrue};
ghost use Rattle.expansion.specs.declared.parts.PartKind.{PartKind};
ghost use Rattle.expansion.specs.Parts.{IsThere, IsUpTo};

use std::marker::Model;

/// What one set of an expansion says.
#[derive(Clone, Copy, Debug, PartialEq, Eq)]
pub enum PartKind {
    /// The set isn't there.
    LeftOut,
    /// The set is there and says no information.
    NoInformation,
    /// Its digits, as a number.
    Digits(u32),
}

/// One set of an expansion, which may be left out (this project's profile).
#[derive(Clone, Copy, Debug, PartialEq, Eq)]
pub struct Part {
    kind: PartKind,
}

impl Model for Part {
    ghost Value = { PartKind };

    ghost view = { λ part. part.kind };

    ghost inverse = { λ kind. record { kind = kind } };
}

impl Part {
    /// A set that isn't there.
    pub fn left_out() -> Part
        ensures { result ≡ PartKind.LeftOut }
    {
        Part {
            kind: PartKind::LeftOut,
        }
    }

    /// A set that is there and says no information.
    pub fn none() -> Part
        ensures { result ≡ PartKind.NoInformation }
    {
        Part {
            kind: PartKind::NoInformation,
        }
    }

    /// A set with these digits.
    pub fn digits(n: u32) -> Part
        ensures { result ≡ PartKind.Digits n }
    {
        Part {
            kind: PartKind::Digits(n),
        }
    }

    /// What the set says.
    pub fn kind(&self) -> PartKind
        ensures { result ≡ self.now }
    {
        self.kind
    }

    /// Whether the set is there.
    pub fn is_there(&self) -> bool
        ensures { IsTrue result ↔ IsThere self.now }
    {
        match self.kind {
            PartKind::LeftOut => false,
            PartKind::NoInformation | PartKind::Digits(_) => true,
        }
    }

    /// Whether its digits, where it has some, are at most so much.
    pub fn is_up_to(&self, most: u32) -> bool
        ensures { IsTrue result ↔ IsUpTo most self.now }
    {
        match self.kind {
            PartKind::LeftOut | PartKind::NoInformation => true,
            PartKind::Digits(n) => n <= most,
        }
    }
}
