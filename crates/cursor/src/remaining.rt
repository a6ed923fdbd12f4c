//! A cursor: what is left of bytes while they are read.
ghost use Rattle.std.specs.Prelude.{◌≡◌};

use std::marker::Model;

/// What isn't read yet of a list: the bytes of a line, or the symbols of a call.
#[derive(Drop)]
pub struct Cursor<'a> {
    rest: &'a [u8],
}

impl<'a> Model for Cursor<'a> {
    ghost use Rattle.std.specs.Prelude.{List, ℕ};

    ghost Value = { List ℕ };

    ghost view = { λ cursor. cursor.rest.now };
}

impl<'a> Cursor<'a> {
    /// The whole list.
    pub fn new(list: &'a [u8]) -> Cursor<'a>
        ensures { result ≡ list.now }
    {
        Cursor { rest: list }
    }

    /// What isn't read yet.
    pub fn rest(&self) -> &'a [u8]
        ensures { result.now ≡ self.now }
    {
        self.rest
    }

    /// Goes on at these bytes or symbols.
    pub fn go_on(&mut self, rest: &'a [u8])
        ensures { self.new ≡ rest.now }
    {
        self.rest = rest;
    }
}
