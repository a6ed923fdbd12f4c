//! Frequency and channel fields.
ghost use Rattle.std.specs.Prelude.{◌≡◌, ◌↔◌, IfSome, IsSome};
ghost use Rattle.call_values.specs.declared.fields.FieldKind.{FieldKind};
ghost use Rattle.call_values.specs.Fields.{IsHundreds, IsHfChannel, IsVhfChannel, IsTens, IsField};

use crate::bounds::{LAST_HF_CHANNEL, LAST_HUNDREDS, LAST_TENS, LAST_VHF_CHANNEL};
use std::marker::Model;

/// What a frequency field of a call says, in a range of each kind's own.
#[derive(Clone, Copy, Debug, PartialEq, Eq)]
pub enum FieldKind {
    /// Nothing.
    Absent,
    /// A frequency in hundreds of hertz, at most 299,999.
    Hundreds(u32),
    /// An MF or HF channel, at most 99,999.
    Hf(u32),
    /// A VHF channel, at most 9,999.
    Vhf(u16),
    /// A frequency in tens of hertz, at most 9,999,999.
    Tens(u32),
}

/// A frequency or channel field of a call, which may say nothing (ITU-R M.493, frequency or channel information).
#[derive(Clone, Copy, Debug, PartialEq, Eq)]
pub struct Field {
    kind: FieldKind,
}

impl Model for Field {
    ghost Value = { FieldKind };

    ghost view = { λ a. a.kind };

    ghost invariant = { λ a. IsField a.kind };

    ghost inverse = { λ k. record { kind = k } };
}

impl Field {
    /// A field that says nothing.
    pub fn absent() -> Field
        ensures { result ≡ FieldKind.Absent }
    {
        Field {
            kind: FieldKind::Absent,
        }
    }

    /// A frequency of so many hundreds of hertz, and `None` exactly where they pass 299,999.
    pub fn hundreds(n: u32) -> Option<Field>
        ensures value { IfSome result (λ v. v ≡ FieldKind.Hundreds n) }
        ensures some { IsSome result ↔ IsHundreds n }
    {
        if n <= LAST_HUNDREDS {
            Some(Field {
                kind: FieldKind::Hundreds(n),
            })
        } else {
            None
        }
    }

    /// An MF or HF channel, and `None` exactly where its number passes 99,999.
    pub fn hf(n: u32) -> Option<Field>
        ensures value { IfSome result (λ v. v ≡ FieldKind.Hf n) }
        ensures some { IsSome result ↔ IsHfChannel n }
    {
        if n <= LAST_HF_CHANNEL {
            Some(Field {
                kind: FieldKind::Hf(n),
            })
        } else {
            None
        }
    }

    /// A VHF channel, and `None` exactly where its number passes 9,999.
    pub fn vhf(n: u16) -> Option<Field>
        ensures value { IfSome result (λ v. v ≡ FieldKind.Vhf n) }
        ensures some { IsSome result ↔ IsVhfChannel n }
    {
        if n <= LAST_VHF_CHANNEL {
            Some(Field {
                kind: FieldKind::Vhf(n),
            })
        } else {
            None
        }
    }

    /// A frequency of so many tens of hertz, and `None` exactly where they pass 9,999,999 (this project's profile).
    pub fn tens(n: u32) -> Option<Field>
        ensures value { IfSome result (λ v. v ≡ FieldKind.Tens n) }
        ensures some { IsSome result ↔ IsTens n }
    {
        if n <= LAST_TENS {
            Some(Field {
                kind: FieldKind::Tens(n),
            })
        } else {
            None
        }
    }

    /// What the field says.
    pub fn kind(&self) -> FieldKind
        ensures value { result ≡ self.now }
        ensures range { IsField result }
    {
        self.kind
    }
}
