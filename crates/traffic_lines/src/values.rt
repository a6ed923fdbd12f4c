//! Numbers that traffic lines alone have, as tokens.
ghost use Rattle.std.specs.Prelude.{◌≡◌, ◌≤◌, ◌<◌, ◌^◌, ℕ, decimal, Ok, Err, IfOk, IfErr};
ghost use Rattle.call_values.specs.declared.bounds.TheConstants as bounds;
ghost use Rattle.line_grammar.specs.Tokens as tokens;
ghost use Rattle.line_grammar.specs.inside.Reading.{read_token};
ghost use Rattle.traffic_lines.specs.Events as events;
ghost use Rattle.traffic_lines.specs.Events.{IsHeldNumber};

use call_texts::Token;
use call_values::bounds::{
    LAST_BASE, LONGEST_ALERT_DELAY, LONGEST_COAST_DELAY, SHORTEST_ALERT_DELAY, SHORTEST_COAST_DELAY,
};
use call_values::{AlertDelay, CoastDelay};
use line_grammar::{LARGEST_NUMBER, Left, free_number};
use std::marker::Model;

/// Reads a number without leading zeros.
fn number_between(least: u64, most: u64, bytes: &[u8]) -> Result<(u64, &[u8]), Left>
    requires most { most < 2 ^ 60 }
    requires least { least ≤ most }
    ensures range { IfOk result (λ parts. (least ≤ parts.0) × (parts.0 ≤ most)) }
    ensures value { IfOk result (λ parts. read_token (tokens.free_number least most) bytes.now
        ≡ Ok (decimal parts.0, parts.1.now)) }
    ensures left { IfErr result (λ left. read_token (tokens.free_number least most) bytes.now ≡ Err left) }
{
    let (number, rest) = free_number(least, most, bytes)?;
    Ok((number, rest))
}

/// The wait from one attempt of an alert to the next.
#[derive(Clone, Copy)]
pub struct Wait {
    pub delay: AlertDelay,
}

impl Token for Wait {
    ghost token = { tokens.free_number bounds.SHORTEST_ALERT_DELAY bounds.LONGEST_ALERT_DELAY };

    ghost text = { λ v. decimal v.delay };

    fn read(bytes: &[u8]) -> Result<(Wait, &[u8]), Left> {
        let (number, rest) = number_between(
            SHORTEST_ALERT_DELAY as u64,
            LONGEST_ALERT_DELAY as u64,
            bytes,
        )?;
        let delay = AlertDelay::new(number as u32).unwrap();
        Ok((Wait { delay }, rest))
    }
}

/// The wait from an alert to its acknowledgement.
#[derive(Clone, Copy)]
pub struct AckWait {
    pub delay: CoastDelay,
}

impl Token for AckWait {
    ghost token = { tokens.free_number bounds.SHORTEST_COAST_DELAY bounds.LONGEST_COAST_DELAY };

    ghost text = { λ v. decimal v.delay };

    fn read(bytes: &[u8]) -> Result<(AckWait, &[u8]), Left> {
        let (number, rest) = number_between(
            SHORTEST_COAST_DELAY as u64,
            LONGEST_COAST_DELAY as u64,
            bytes,
        )?;
        let delay = CoastDelay::new(number as u32).unwrap();
        Ok((AckWait { delay }, rest))
    }
}

/// The number of a held call.
#[derive(Clone, Copy)]
pub struct Held {
    number: u8,
}

impl Model for Held {
    ghost Value = { ℕ };

    ghost view = { λ a. a.number };

    ghost invariant = { λ a. IsHeldNumber a.number };

    ghost inverse = { λ n. record { number = n } };
}

impl Held {
    /// The number.
    pub fn number(&self) -> u8
        ensures value { result ≡ self.now }
        ensures range { IsHeldNumber result }
    {
        self.number
    }
}

impl Token for Held {
    ghost token = { events.held };

    ghost text = { λ v. decimal v };

    fn read(bytes: &[u8]) -> Result<(Held, &[u8]), Left> {
        let (number, rest) = number_between(1, 16, bytes)?;
        let number = number as u8;
        Ok((Held { number }, rest))
    }
}

/// A number of lines: a moment, a group, or a call that was sent.
#[derive(Clone, Copy)]
pub struct Number {
    pub number: u32,
}

impl Token for Number {
    ghost token = { events.number };

    ghost text = { λ v. decimal v.number };

    fn read(bytes: &[u8]) -> Result<(Number, &[u8]), Left> {
        let (number, rest) = number_between(0, LARGEST_NUMBER, bytes)?;
        let number = number as u32;
        Ok((Number { number }, rest))
    }
}

/// The second that moments count from.
#[derive(Clone, Copy)]
pub struct Second {
    number: u64,
}

impl Model for Second {
    ghost Value = { ℕ };

    ghost view = { λ a. a.number };

    ghost invariant = { λ a. a.number ≤ bounds.LAST_BASE };

    ghost inverse = { λ n. record { number = n } };
}

impl Second {
    /// The second.
    pub fn number(&self) -> u64
        ensures value { result ≡ self.now }
        ensures range { result ≤ bounds.LAST_BASE }
    {
        self.number
    }
}

impl Token for Second {
    ghost token = { tokens.free_number 0 bounds.LAST_BASE };

    ghost text = { λ v. decimal v };

    fn read(bytes: &[u8]) -> Result<(Second, &[u8]), Left> {
        let (number, rest) = number_between(0, LAST_BASE, bytes)?;
        Ok((Second { number }, rest))
    }
}
