//! What comes to a station, and events: a reader for each row.
ghost use Rattle.std.specs.Prelude.{◌≡◌, false, is_ok};
ghost use Rattle.line_grammar.specs.Grammar.{finish};
ghost use Rattle.line_grammar.specs.Sections.{last, nth};
ghost use Rattle.line_grammar.specs.Rows.{FindsRow, ReadsRow};
ghost use Rattle.line_grammar.specs.inside.Reading.{read};
ghost use Rattle.traffic_lines.specs.Events as rows;
ghost use Rattle.traffic_lines.specs.Events.{IsEvent, IsGet, IsHearing, event_parts, get_parts, hearing_parts};

use crate::lines::{Deed, Event, Hearing};
use crate::rows::{Begun, Rows, spelled, to_end};
use crate::values::{Held, Number};
use call_texts::{any_call, sets_are_lawful};
use expansion::Expansion;
use line_grammar::{Left, begins_with, further};

/// Reads `hear` and the text of a call, perhaps with an expansion.
fn hear(bytes: &[u8]) -> Result<Hearing, Left>
    ensures { ReadsRow rows.hear (nth 0) IsHearing hearing_parts bytes.now result }
{
    let text = line_grammar::word(b"hear ", bytes)?;
    let (call, tail) = any_call::<Option<Expansion>>(text)?;
    call.lawful();
    sets_are_lawful(&tail);
    Ok(Hearing::Hear(call, tail))
}

/// Reads `heard` and the number of a group.
fn heard(bytes: &[u8]) -> Result<Hearing, Left>
    ensures { ReadsRow rows.heard (last 1) IsHearing hearing_parts bytes.now result }
{
    let group: Number = to_end(b"heard g", bytes)?;
    Ok(Hearing::Heard(group.number))
}

impl Rows for Hearing {
    ghost rows = { rows.hearing_rows };

    ghost lawful = { IsHearing };

    ghost parts = { hearing_parts };

    /// A call that is heard ends the search.
    fn read(bytes: &[u8]) -> Result<Hearing, Left> {
        let call = hear(bytes);
        if call.is_ok() {
            return call;
        }
        further(&call, &heard(bytes))
    }
}

impl Begun for Hearing {
    fn begins(bytes: &[u8]) -> bool {
        begins_with(b"h", bytes)
    }
}

/// The number of a call that the other end of an exchange sent.
impl Rows for u32 {
    ghost rows = { rows.get };

    ghost lawful = { IsGet };

    ghost parts = { get_parts };

    fn read(bytes: &[u8]) -> Result<u32, Left> {
        let call: Number = to_end(b"get ", bytes)?;
        Ok(call.number)
    }
}

impl Begun for u32 {
    fn begins(bytes: &[u8]) -> bool {
        begins_with(b"g", bytes)
    }
}

/// Reads what only this kind of station does, as an event. It isn't inlined, since few lines come here.
#[inline(never)]
fn own_row<O: Rows, C: Rows>(bytes: &[u8]) -> Result<Event<O, C>, Left>
    ensures { ReadsRow O.rows (nth 1) (IsEvent O.lawful C.lawful) (event_parts O.parts C.parts) bytes.now result }
{
    let what = O::read(bytes)?;
    Ok(Event::Does(Deed::Own(what)))
}

/// Reads what only this kind of station does, where its rows may begin so. A fault says that none of them was read.
fn own<O: Begun, C: Rows>(bytes: &[u8]) -> Result<Event<O, C>, Left>
    ensures row { FindsRow O.rows (nth 1) (IsEvent O.lawful C.lawful) (event_parts O.parts C.parts) bytes.now result }
    ensures missed { is_ok result ≡ false → is_ok (read (O.rows finish) bytes.now) ≡ false }
{
    if !O::begins(bytes) {
        return Err(0);
    }
    own_row(bytes)
}

/// Reads what comes to the station from outside, as an event.
fn comes<O: Rows, C: Rows>(bytes: &[u8]) -> Result<Event<O, C>, Left>
    ensures { ReadsRow C.rows (nth 0) (IsEvent O.lawful C.lawful) (event_parts O.parts C.parts) bytes.now result }
{
    let what = C::read(bytes)?;
    Ok(Event::Comes(what))
}

/// Reads `tick`.
fn tick<O: Rows, C: Rows>(bytes: &[u8]) -> Result<Event<O, C>, Left>
    ensures { ReadsRow rows.tick (nth 2) (IsEvent O.lawful C.lawful) (event_parts O.parts C.parts) bytes.now result }
{
    spelled(b"tick", Event::Does(Deed::Tick), bytes)
}

/// Reads `answer` and a held number.
fn answer<O: Rows, C: Rows>(bytes: &[u8]) -> Result<Event<O, C>, Left>
    ensures { ReadsRow rows.answer (nth 3) (IsEvent O.lawful C.lawful) (event_parts O.parts C.parts) bytes.now result }
{
    let held: Held = to_end(b"answer ", bytes)?;
    Ok(Event::Does(Deed::Answer(held.number(), true)))
}

/// Reads `decline` and a held number.
fn decline<O: Rows, C: Rows>(bytes: &[u8]) -> Result<Event<O, C>, Left>
    ensures { ReadsRow rows.decline (nth 4) (IsEvent O.lawful C.lawful) (event_parts O.parts C.parts) bytes.now result }
{
    let held: Held = to_end(b"decline ", bytes)?;
    Ok(Event::Does(Deed::Answer(held.number(), false)))
}

/// Reads `send` and the text of a call, with nothing after it.
fn send<O: Rows, C: Rows>(bytes: &[u8]) -> Result<Event<O, C>, Left>
    ensures { ReadsRow rows.send (last 5) (IsEvent O.lawful C.lawful) (event_parts O.parts C.parts) bytes.now result }
{
    let text = line_grammar::word(b"send ", bytes)?;
    let (call, _nothing) = any_call::<()>(text)?;
    call.lawful();
    Ok(Event::Does(Deed::Send(call)))
}

/// Reads an event by each row. It isn't inlined, since only a line that is no event comes here.
#[inline(never)]
fn each_event<O: Rows, C: Rows>(bytes: &[u8]) -> Result<Event<O, C>, Left>
    ensures { ReadsRow (rows.event O.rows C.rows) (last 0) (IsEvent O.lawful C.lawful) (event_parts O.parts C.parts)
        bytes.now result }
{
    let declined = further(&decline(bytes), &send(bytes));
    let answered = further(&answer(bytes), &declined);
    let ticked = further(&tick(bytes), &answered);
    let done = further(&own_row(bytes), &ticked);
    further(&comes(bytes), &done)
}

/// Reads a deed: what only this kind of station does, or else the row that the first byte tells. A fault says nothing of
/// the other rows.
fn told_deed<O: Begun, C: Rows>(bytes: &[u8]) -> Result<Event<O, C>, Left>
    ensures { FindsRow (rows.deeds O.rows) (last 1) (IsEvent O.lawful C.lawful) (event_parts O.parts C.parts) bytes.now
        result }
{
    let own = own(bytes);
    if own.is_ok() {
        return own;
    }
    let Some((first, _)) = bytes.split_first() else {
        return Err(0);
    };
    match *first {
        b't' => tick(bytes),
        b'a' => answer(bytes),
        b'd' => decline(bytes),
        b's' => send(bytes),
        _ => Err(0),
    }
}

/// Reads what comes to the station where its rows may begin so, and else a deed. A fault says nothing of the other rows.
fn told_event<O: Begun, C: Begun>(bytes: &[u8]) -> Result<Event<O, C>, Left>
    ensures { FindsRow (rows.event O.rows C.rows) (last 0) (IsEvent O.lawful C.lawful) (event_parts O.parts C.parts)
        bytes.now result }
{
    if C::begins(bytes) {
        return comes(bytes);
    }
    told_deed(bytes)
}

impl<O: Begun, C: Begun> Rows for Event<O, C> {
    ghost rows = { rows.event O.rows C.rows };

    ghost lawful = { IsEvent O.lawful C.lawful };

    ghost parts = { event_parts O.parts C.parts };

    /// Reads by the first byte, and by each row where that finds none, for the fault.
    fn read(bytes: &[u8]) -> Result<Event<O, C>, Left> {
        let told = told_event(bytes);
        if told.is_ok() {
            return told;
        }
        each_event(bytes)
    }
}
