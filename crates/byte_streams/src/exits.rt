//! The status with which a run ends.
ghost use Rattle.std.specs.Prelude.{◌≡◌, ℕ, ◌≤◌, if◌then◌else◌};

use std::marker::Model;

/// The exit status of a run of the program, 0 to 7.
#[derive(Clone, Copy, Debug, PartialEq, Eq)]
pub struct Status {
    number: u8,
}

impl Model for Status {
    ghost Value = { ℕ };

    ghost view = { λ a. a.number };

    ghost invariant = { λ a. a.number ≤ 7 };

    ghost inverse = { λ n. record { number = n } };
}

impl Status {
    /// The status with this number.
    pub fn new(n: u8) -> Status
        requires { n ≤ 7 }
        ensures { result ≡ n }
    {
        Status { number: n }
    }

    /// The status of a run that was finished: 0 where all is well, and else 1.
    pub fn of(is_well: bool) -> Status
        ensures { result ≡ if is_well then 0 else 1 }
    {
        Status::new(u8::from(!is_well))
    }

    /// The number that the status was made from.
    pub fn number(&self) -> u8
        ensures value { result ≡ self.now }
        ensures range { result ≤ 7 }
    {
        self.number
    }
}
