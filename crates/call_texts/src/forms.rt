//! Readers of the forms of call texts.
ghost use Rattle.std.specs.Prelude.{codes};
ghost use Rattle.line_grammar.specs.Grammar.{first, second};
ghost use Rattle.call_texts.specs.CallGrammar as grammar;
ghost use Rattle.line_grammar.specs.Sections.{labelled, nth, last, FindsForm, ReadsForm};
ghost use Rattle.call_texts.specs.inside.Reading.{ending_with, parts_with};

use crate::line::word;
use crate::sections::{Distress, Frequencies, Request, Sender, casualty, field};
use crate::tails::Tail;
use crate::tokens::{RelayEnd, TestEnd};
use call_values::{Area, Call, End, HourMinute, Kind, Message, Mmsi, Position, To};
use cursor::Cursor;
use line_grammar::{Left, further};

/// Reads a distress alert. It is inlined, since no call is read as often.
#[inline(always)]
pub fn alert<T: Tail>(bytes: &[u8]) -> Result<(Call, T), Left>
    ensures { ReadsForm (grammar.alert T.grammar) (nth 0) (parts_with T.parts) bytes.now result }
{
    let mut line = Cursor::new(bytes);
    word(&mut line, b"alert")?;
    let from: Mmsi = field(&mut line, b" from=")?;
    let casualty = casualty(&mut line, from)?;
    let tail = T::read(line.rest())?;
    let call = Call::Alert(casualty);
    Ok((call, tail))
}

/// Reads a distress acknowledgement.
pub fn ack<T: Tail>(bytes: &[u8]) -> Result<(Call, T), Left>
    ensures { ReadsForm (grammar.ack T.grammar) (nth 1) (parts_with T.parts) bytes.now result }
{
    let mut line = Cursor::new(bytes);
    word(&mut line, b"ack")?;
    let distress = Distress::read(&mut line)?;
    let tail = T::read(line.rest())?;
    let call = Call::Ack {
        from: distress.from,
        casualty: distress.casualty,
    };
    Ok((call, tail))
}

/// Reads a distress relay.
pub fn relay<T: Tail>(bytes: &[u8]) -> Result<(Call, T), Left>
    ensures { ReadsForm (grammar.relay T.grammar) (nth 2) (parts_with T.parts) bytes.now result }
{
    let mut line = Cursor::new(bytes);
    let to: To = field(&mut line, b"relay to=")?;
    let distress = Distress::read(&mut line)?;
    let eos: RelayEnd = field(&mut line, b" end=")?;
    let tail = T::read(line.rest())?;
    let call = Call::Relay {
        to,
        from: distress.from,
        casualty: distress.casualty,
        ask: eos.ask,
    };
    Ok((call, tail))
}

/// Reads a relay acknowledgement.
pub fn relay_ack<T: Tail>(bytes: &[u8]) -> Result<(Call, T), Left>
    ensures { ReadsForm (grammar.relay_ack T.grammar) (nth 3) (parts_with T.parts) bytes.now result }
{
    let mut line = Cursor::new(bytes);
    let to: To = field(&mut line, b"relayack to=")?;
    let distress = Distress::read(&mut line)?;
    let tail = T::read(line.rest())?;
    let call = Call::RelayAck {
        to,
        from: distress.from,
        casualty: distress.casualty,
    };
    Ok((call, tail))
}

/// Reads a call to all ships.
pub fn all_ships<T: Tail>(bytes: &[u8]) -> Result<(Call, T), Left>
    ensures { ReadsForm (grammar.all_ships T.grammar) (nth 4) (parts_with T.parts) bytes.now result }
{
    let mut line = Cursor::new(bytes);
    word(&mut line, b"all")?;
    let request = Request::read(&mut line)?;
    let frequencies = Frequencies::read(&mut line)?;
    let tail = T::read(line.rest())?;
    let call = Call::AllShips {
        category: request.category,
        from: request.from,
        first: request.first,
        second: request.second,
        f1: frequencies.f1,
        f2: frequencies.f2,
    };
    Ok((call, tail))
}

/// Reads a call to an area.
pub fn area_call<T: Tail>(bytes: &[u8]) -> Result<(Call, T), Left>
    ensures { ReadsForm (grammar.area_call T.grammar) (nth 5) (parts_with T.parts) bytes.now result }
{
    let mut line = Cursor::new(bytes);
    let area: Area = field(&mut line, b"area to=")?;
    let request = Request::read(&mut line)?;
    let frequencies = Frequencies::read(&mut line)?;
    let tail = T::read(line.rest())?;
    let call = Call::AreaCall {
        area,
        category: request.category,
        from: request.from,
        first: request.first,
        second: request.second,
        f1: frequencies.f1,
        f2: frequencies.f2,
    };
    Ok((call, tail))
}

/// Reads a call to a group.
pub fn group_call<T: Tail>(bytes: &[u8]) -> Result<(Call, T), Left>
    ensures { ReadsForm (grammar.group_call T.grammar) (nth 6) (parts_with T.parts) bytes.now result }
{
    let mut line = Cursor::new(bytes);
    let group: Mmsi = field(&mut line, b"group to=")?;
    let request = Request::read(&mut line)?;
    let frequencies = Frequencies::read(&mut line)?;
    let tail = T::read(line.rest())?;
    let call = Call::GroupCall {
        group,
        category: request.category,
        from: request.from,
        first: request.first,
        second: request.second,
        f1: frequencies.f1,
        f2: frequencies.f2,
    };
    Ok((call, tail))
}

/// What a call to one station ends with.
#[derive(Clone, Copy)]
pub struct Ending {
    message: Message,
    end: End,
}

/// Reads two frequencies or channels and the end of a call to one station.
fn frequencies_and_end<T: Tail>(bytes: &[u8]) -> Result<(Ending, T), Left>
    ensures { ReadsForm (grammar.frequencies (grammar.end grammar.all_ends T.grammar)) first (ending_with T.parts)
        bytes.now result }
{
    let mut line = Cursor::new(bytes);
    let frequencies = Frequencies::read(&mut line)?;
    let eos: End = field(&mut line, b" end=")?;
    let tail = T::read(line.rest())?;
    let ending = Ending {
        message: Message::Fields(frequencies.f1, frequencies.f2),
        end: eos,
    };
    Ok((ending, tail))
}

/// Reads a position in the place of frequencies and the end of a call to one station.
fn position_and_end<T: Tail>(bytes: &[u8]) -> Result<(Ending, T), Left>
    ensures { ReadsForm (labelled (codes " at=") grammar.position (grammar.end grammar.all_ends T.grammar)) second
        (ending_with T.parts) bytes.now result }
{
    let mut line = Cursor::new(bytes);
    let position: Position = field(&mut line, b" at=")?;
    let eos: End = field(&mut line, b" end=")?;
    let tail = T::read(line.rest())?;
    let ending = Ending {
        message: Message::At(position),
        end: eos,
    };
    Ok((ending, tail))
}

/// Reads the message and the end of a call to one station.
fn message_and_end<T: Tail>(bytes: &[u8]) -> Result<(Ending, T), Left>
    ensures { ReadsForm (grammar.message (grammar.end grammar.all_ends T.grammar)) (λ p. p) (ending_with T.parts)
        bytes.now result }
{
    let frequencies = frequencies_and_end(bytes);
    if frequencies.is_ok() {
        return frequencies;
    }
    further(&frequencies, &position_and_end(bytes))
}

/// Reads a call to one station.
pub fn individual<T: Tail>(bytes: &[u8]) -> Result<(Call, T), Left>
    ensures { ReadsForm (grammar.individual T.grammar) (nth 7) (parts_with T.parts) bytes.now result }
{
    let mut line = Cursor::new(bytes);
    let to: Mmsi = field(&mut line, b"one to=")?;
    let request = Request::read(&mut line)?;
    let (ending, tail) = message_and_end(line.rest())?;
    let call = Call::Individual {
        to,
        category: request.category,
        from: request.from,
        first: request.first,
        second: request.second,
        message: ending.message,
        end: ending.end,
    };
    Ok((call, tail))
}

/// Reads a test or its acknowledgement.
pub fn test<T: Tail>(bytes: &[u8]) -> Result<(Call, T), Left>
    ensures { ReadsForm (grammar.test T.grammar) (nth 8) (parts_with T.parts) bytes.now result }
{
    let mut line = Cursor::new(bytes);
    let to: Mmsi = field(&mut line, b"test to=")?;
    let sender = Sender::read(&mut line)?;
    let eos: TestEnd = field(&mut line, b" end=")?;
    let tail = T::read(line.rest())?;
    let call = Call::Service {
        to,
        category: sender.category,
        from: sender.from,
        kind: Kind::Test { reply: eos.reply },
    };
    Ok((call, tail))
}

/// Reads a position that is asked for.
pub fn position_request<T: Tail>(bytes: &[u8]) -> Result<(Call, T), Left>
    ensures { ReadsForm (grammar.position_request T.grammar) (nth 9) (parts_with T.parts) bytes.now result }
{
    let mut line = Cursor::new(bytes);
    let to: Mmsi = field(&mut line, b"askpos to=")?;
    let sender = Sender::read(&mut line)?;
    let tail = T::read(line.rest())?;
    let call = Call::Service {
        to,
        category: sender.category,
        from: sender.from,
        kind: Kind::AskPosition,
    };
    Ok((call, tail))
}

/// Reads a position that is given.
pub fn position_answer<T: Tail>(bytes: &[u8]) -> Result<(Call, T), Left>
    ensures { ReadsForm (grammar.position_answer T.grammar) (last 10) (parts_with T.parts) bytes.now result }
{
    let mut line = Cursor::new(bytes);
    let to: Mmsi = field(&mut line, b"pos to=")?;
    let sender = Sender::read(&mut line)?;
    let position: Position = field(&mut line, b" pos=")?;
    let time: HourMinute = field(&mut line, b" time=")?;
    let tail = T::read(line.rest())?;
    let call = Call::Service {
        to,
        category: sender.category,
        from: sender.from,
        kind: Kind::Position(position, time),
    };
    Ok((call, tail))
}

/// Reads a test, a position that is asked for, or one that is given.
fn service<T: Tail>(bytes: &[u8]) -> Result<(Call, T), Left>
    ensures { ReadsForm (grammar.services T.grammar) (last 8) (parts_with T.parts) bytes.now result }
{
    let positions = further(&position_request(bytes), &position_answer(bytes));
    further(&test(bytes), &positions)
}

/// Reads a call that is no distress call, by each form.
fn other_call<T: Tail>(bytes: &[u8]) -> Result<(Call, T), Left>
    ensures { ReadsForm (grammar.other_calls T.grammar) (last 4) (parts_with T.parts) bytes.now result }
{
    let to_one = further(&individual(bytes), &service(bytes));
    let to_some = further(&group_call(bytes), &to_one);
    let to_others = further(&area_call(bytes), &to_some);
    further(&all_ships(bytes), &to_others)
}

/// Reads a call by each form. It isn't inlined, since only a text that is no call comes here.
#[inline(never)]
fn each_form<T: Tail>(bytes: &[u8]) -> Result<(Call, T), Left>
    ensures { ReadsForm (grammar.calls T.grammar) (λ p. p) (parts_with T.parts) bytes.now result }
{
    let others = further(&relay_ack(bytes), &other_call(bytes));
    let relays = further(&relay(bytes), &others);
    let distress = further(&ack(bytes), &relays);
    further(&alert(bytes), &distress)
}

/// Reads a call by the form that the first two bytes tell. A fault says nothing of other forms.
fn told_form<T: Tail>(bytes: &[u8]) -> Result<(Call, T), Left>
    ensures { FindsForm (grammar.calls T.grammar) (λ p. p) (parts_with T.parts) bytes.now result }
{
    let Some((first, rest)) = bytes.split_first() else {
        return Err(0);
    };
    let Some((second, _)) = rest.split_first() else {
        return Err(0);
    };
    match (*first, *second) {
        (b'a', b'l') => {
            let told = alert(bytes);
            if told.is_ok() { told } else { all_ships(bytes) }
        }
        (b'a', b'c') => ack(bytes),
        (b'a', b'r') => area_call(bytes),
        (b'a', b's') => position_request(bytes),
        (b'r', b'e') => {
            let relayed = relay(bytes);
            if relayed.is_ok() {
                relayed
            } else {
                relay_ack(bytes)
            }
        }
        (b'g', b'r') => group_call(bytes),
        (b'o', b'n') => individual(bytes),
        (b't', b'e') => test(bytes),
        (b'p', b'o') => position_answer(bytes),
        _ => Err(0),
    }
}

/// Reads a call of any form: by the form that its first bytes tell, since every call's text is of that form; and by
/// each form where that finds no call, for the column of the fault.
pub fn any_call<T: Tail>(bytes: &[u8]) -> Result<(Call, T), Left>
    ensures { ReadsForm (grammar.calls T.grammar) (λ p. p) (parts_with T.parts) bytes.now result }
{
    let told = told_form(bytes);
    if told.is_ok() {
        return told;
    }
    each_form(bytes)
}
