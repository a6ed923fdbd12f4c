//! The seat of one poster.
ghost use Rattle.std.specs.Prelude.{◌≡◌};
ghost use Rattle.evidence_board.specs.Views.{fresh};
ghost use Rattle.evidence_board.specs.Seats.{IsSeated};

use crate::allowed::Allowed;
use crate::words::Token;
use std::marker::{Model, PhantomData};

/// The share of a board's first seat.
pub const WHOLE: u32 = 1_073_741_824;

/// The token of one poster of a board, with its share. Contracts see it as its table and what it knows. A seat that is
/// dropped takes its share with it: its board can't be closed any more, but it can be looked at.
#[derive(Drop)]
pub struct Seat<A: Allowed> {
    pub(crate) token: Token,
    pub(crate) share: u32,
    of: PhantomData<A>,
}

impl<A: Allowed> Model for Seat<A> {
    ghost use Rattle.std.specs.Prelude.{◌≡◌};
    ghost use Rattle.evidence_board.specs.Seats.{Held, IsSeated};

    ghost Value = { Held };

    ghost view = { λ s. s.token };

    ghost invariant = { λ s. (s.share ≡ s.token.view.share) × IsSeated s.token.view };
}

impl<A: Allowed> Seat<A> {
    /// The share.
    pub fn share(&self) -> u32
        ensures { result ≡ self.now.view.share }
    {
        self.share
    }

    /// The first seat of a board.
    pub(crate) fn first(token: Token) -> Seat<A>
        requires { token.view ≡ fresh WHOLE }
        ensures table { result.table ≡ token.table }
        ensures view { result.view ≡ fresh WHOLE }
    {
        Seat::with_share(token, WHOLE)
    }

    /// A seat with this share.
    pub(crate) fn with_share(token: Token, share: u32) -> Seat<A>
        requires share { share ≡ token.view.share }
        requires seated { IsSeated token.view }
        ensures table { result.table ≡ token.table }
        ensures view { result.view ≡ token.view }
    {
        Seat {
            token,
            share,
            of: PhantomData,
        }
    }
}
