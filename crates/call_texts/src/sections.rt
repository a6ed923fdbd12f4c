//! Sections that several forms of call texts have in common.
ghost use Rattle.std.specs.Prelude.{◌≡◌, IfOk};
ghost use Rattle.line_grammar.specs.Grammar.{part};
ghost use Rattle.call_texts.specs.CallGrammar as grammar;
ghost use Rattle.line_grammar.specs.Sections.{labelled, ReadsSection};
ghost use Rattle.call_texts.specs.CallParts.{casualty_parts, distress_parts, sender_parts, request_parts, frequencies_parts};

use crate::line::{take, whole_word};
use crate::tokens::Token;
use call_values::{
    Casualty, Category, Comm, Field, First, HourMinute, Mmsi, Nature, Position, Second,
};
use cursor::Cursor;
use line_grammar::Left;

/// Reads a value after its label.
#[inline(always)]
pub fn field<T: Token>(line: &mut Cursor, label: &[u8]) -> Result<T, Left>
    ensures { ReadsSection (labelled label.now T.token) (λ v. part (T.text v)) line.old result line.new }
{
    whole_word(line, label)?;
    take(line, &T::read(line.rest()))
}

/// Reads nature of distress, position, time and subsequent communications of this ship.
pub fn casualty(line: &mut Cursor, mmsi: Mmsi) -> Result<Casualty, Left>
    ensures mmsi { IfOk result (λ casualty. casualty.mmsi ≡ mmsi) }
    ensures reads { ReadsSection grammar.casualty casualty_parts line.old result line.new }
{
    let nature: Nature = field(line, b" nature=")?;
    let position: Position = field(line, b" pos=")?;
    let time: HourMinute = field(line, b" time=")?;
    let comm: Comm = field(line, b" then=")?;
    Ok(Casualty {
        mmsi,
        nature,
        position,
        time,
        comm,
    })
}

/// A call's distress: its sender, and a casualty that is another ship.
#[derive(Clone, Copy)]
pub struct Distress {
    pub from: Mmsi,
    pub casualty: Casualty,
}

impl Distress {
    /// Reads a sender, and a casualty that is another ship.
    pub fn read(line: &mut Cursor) -> Result<Distress, Left>
        ensures { ReadsSection grammar.distress (λ v. distress_parts v.from v.casualty) line.old result line.new }
    {
        let from: Mmsi = field(line, b" from=")?;
        let mmsi: Mmsi = field(line, b" casualty=")?;
        let casualty = casualty(line, mmsi)?;
        Ok(Distress { from, casualty })
    }
}

/// A category and a sender.
#[derive(Clone, Copy)]
pub struct Sender {
    pub category: Category,
    pub from: Mmsi,
}

impl Sender {
    /// Reads a category and a sender.
    pub fn read(line: &mut Cursor) -> Result<Sender, Left>
        ensures { ReadsSection grammar.sender (λ v. sender_parts v.category v.from) line.old result line.new }
    {
        let category: Category = field(line, b" cat=")?;
        let from: Mmsi = field(line, b" from=")?;
        Ok(Sender { category, from })
    }
}

/// A category, a sender and two telecommands.
#[derive(Clone, Copy)]
pub struct Request {
    pub category: Category,
    pub from: Mmsi,
    pub first: First,
    pub second: Second,
}

impl Request {
    /// Reads a category, a sender and two telecommands.
    pub fn read(line: &mut Cursor) -> Result<Request, Left>
        ensures { ReadsSection grammar.request (λ v. request_parts v.category v.from v.first v.second) line.old result
            line.new }
    {
        let sender = Sender::read(line)?;
        let first: First = field(line, b" first=")?;
        let second: Second = field(line, b" second=")?;
        Ok(Request {
            category: sender.category,
            from: sender.from,
            first,
            second,
        })
    }
}

/// Two frequencies or channels.
#[derive(Clone, Copy)]
pub struct Frequencies {
    pub f1: Field,
    pub f2: Field,
}

impl Frequencies {
    /// Reads two frequencies or channels.
    pub fn read(line: &mut Cursor) -> Result<Frequencies, Left>
        ensures { ReadsSection grammar.frequencies (λ v. frequencies_parts v.f1 v.f2) line.old result line.new }
    {
        let f1: Field = field(line, b" f1=")?;
        let f2: Field = field(line, b" f2=")?;
        Ok(Frequencies { f1, f2 })
    }
}
