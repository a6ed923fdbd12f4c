//! Held calls, under their numbers from 1 to 16.
ghost use Rattle.std.specs.Prelude.{◌≡◌, ◌<◌, ◌≤◌, IfSome, IfNone, is_none, length, position, replicate, true};
ghost use Rattle.traffic_rules.specs.Holding as holding;

use call_values::Call;
use std::marker::Model;

/// The most calls that a station holds at once, under the numbers from 1 to 16 (this project's profile).
pub const MOST_HELD: usize = 16;

/// Whether a held call was sent or got.
#[derive(Clone, Copy, Debug, PartialEq, Eq)]
pub enum Side {
    Sent,
    Got,
}

/// A held call (this project's profile).
#[derive(Clone, Copy, Debug, PartialEq, Eq)]
pub struct Held {
    /// 1 to 16.
    pub number: u8,
    pub call: Call,
    pub side: Side,
    /// The moment at which it was got or last sent, in milliseconds.
    pub at: u64,
    /// How often it was sent, 0 for a call that was got.
    pub times: u8,
}

/// What is kept of a held call. Its place is its number less one.
#[derive(Clone, Copy)]
pub struct Holding {
    pub call: Call,
    pub side: Side,
    /// The moment at which it was got or last sent, in milliseconds.
    pub at: u64,
    /// How often it was sent, 0 for a call that was got.
    pub times: u8,
}

impl Holding {
    /// This call as it is held under a number.
    fn numbered(&self, number: u8) -> Held
        ensures { Some result ≡ holding.numbered number (Some self.now) }
    {
        Held {
            number,
            call: self.call,
            side: self.side,
            at: self.at,
            times: self.times,
        }
    }
}

/// At most 16 held calls, under the numbers 1 to 16.
#[derive(Drop)]
pub struct HeldCalls {
    places: [Option<Holding>; MOST_HELD],
    /// No call is held. It may be false where none is.
    is_free: bool,
}

impl Model for HeldCalls {
    ghost use Rattle.std.specs.Prelude.{◌≡◌, true, None, List, Option, length, replicate};
    ghost use Rattle.traffic_rules.specs.declared.held.Holding.{Holding};

    ghost Value = { List (Option Holding) };

    ghost view = { λ h. h.places };

    ghost invariant = { λ h. (length h.places ≡ 16) × (h.is_free ≡ true → h.places ≡ replicate 16 None) };
}

impl HeldCalls {
    /// No held call.
    pub fn empty() -> HeldCalls
        ensures { result ≡ replicate 16 None }
    {
        HeldCalls {
            places: [None; MOST_HELD],
            is_free: true,
        }
    }

    /// Holds a call under the least free number, and answers the number; `None` exactly where 16 are held. A sent call
    /// was sent once.
    pub fn hold(&mut self, call: Call, side: Side, at: u64) -> Option<u8>
        ensures number { result ≡ holding.first_free self.old }
        ensures held { IfSome result (λ number. self.new
            ≡ holding.with_place self.old number (Some (holding.newly_held call side at))) }
        ensures full { IfNone result (self.new ≡ self.old) }
    {
        let times = match side {
            Side::Sent => 1,
            Side::Got => 0,
        };
        let number = self.first_free()?;
        self.is_free = false;
        self.places[number as usize - 1] = Some(Holding {
            call,
            side,
            at,
            times,
        });
        Some(number)
    }

    /// The call that is held under a number.
    pub fn find(&self, number: u8) -> Option<Held>
        ensures { result ≡ holding.held_under self.now number }
    {
        match number {
            1..=16 => match self.places[number as usize - 1] {
                Some(held) => Some(held.numbered(number)),
                None => None,
            },
            _ => None,
        }
    }

    /// Takes the call that is held under a number away, and answers it. Where none is, the calls are as they were.
    pub fn release(&mut self, number: u8) -> Option<Held>
        ensures held { result ≡ holding.held_under self.old number }
        ensures free { self.new ≡ holding.with_place self.old number None }
        ensures none { IfNone result (self.new ≡ self.old) }
    {
        let held = self.find(number)?;
        self.is_free = false;
        self.places[number as usize - 1] = None;
        Some(held)
    }

    /// Notes that the call under a number was sent again. It was sent, fewer than 255 times.
    pub fn sent_again(&mut self, number: u8, at: u64)
        requires { holding.IsToSend (holding.place_of self.old number) }
        ensures { self.new
            ≡ holding.with_place self.old number (holding.sent_at at (holding.place_of self.old number)) }
    {
        let place = number as usize - 1;
        if let Some(held) = self.places[place] {
            self.is_free = false;
            self.places[place] = Some(Holding {
                at,
                times: held.times + 1,
                ..held
            });
        }
    }

    /// No call is held. False says nothing: a station that once held a call looks at each place.
    pub(crate) fn is_free(&self) -> bool
        ensures { result ≡ true → self.now ≡ replicate 16 None }
    {
        self.is_free
    }

    /// What is held under the numbers 1 to 16, in this order.
    pub fn places(&self) -> &[Option<Holding>]
        ensures places { result.now ≡ self.now }
        ensures sixteen { length result.now ≡ 16 }
    {
        &self.places
    }

    /// The least number whose place is empty.
    fn first_free(&self) -> Option<u8>
        ensures number { result ≡ holding.first_free self.now }
        ensures range { IfSome result (λ number. (1 ≤ number) × (number ≤ 16)) }
    {
        match first_empty(&self.places) {
            Some(index) => Some(index as u8 + 1),
            None => None,
        }
    }
}

/// The index of the first place that holds no call.
fn first_empty(places: &[Option<Holding>]) -> Option<usize>
    ensures value { result ≡ position is_none places.now }
    ensures range { IfSome result (λ index. index < length places.now) }
{
    places.iter().position(|place| place.is_none())
}
