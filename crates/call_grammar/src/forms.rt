//! Readers of the forms of calls, from the format specifier on.
ghost use Rattle.std.specs.Prelude.{◌≡◌};
ghost use Rattle.symbol_reader.specs.inside.Reading.{Reads};
ghost use Rattle.call_grammar.specs.inside.Grammar.{CheckedCharacters};
ghost use Rattle.call_grammar.specs.inside.Forms as forms;

use crate::fields::{casualty, identity};
use crate::individuals::individual;
use crate::messages::{area, field};
use crate::symbols::{
    Specifier, category_unless_distress, distress_telecommand, end, first, format, second,
};
use call_values::{Call, Casualty, Category, End, Field, First, Message, Mmsi, Second, To};
use cursor::Cursor;
use dsc_symbols::ends::EOS;
use symbol_reader::{Letter, Stop, symbol};

/// Reads what the error check covers: the format specifier once, the fields and the end of sequence.
pub fn checked_characters(list: &mut Cursor) -> Result<Call, Stop>
    ensures { Reads CheckedCharacters list.old result list.new }
{
    let format = format(list)?;
    after_format(list, format)
}

/// Reads what follows this format specifier, which says whether an address comes and which one.
fn after_format(list: &mut Cursor, format: Specifier) -> Result<Call, Stop>
    ensures { Reads (forms.AfterFormat format) list.old result list.new }
{
    match format {
        Specifier::Alert => alert(list),
        Specifier::All => addressed(list, &To::All),
        Specifier::Area => {
            let area = area(list)?;
            addressed(list, &To::Area(area))
        }
        Specifier::Group => {
            let group = identity(list)?;
            addressed(list, &To::Group(group))
        }
        Specifier::One => {
            let station = identity(list)?;
            addressed_to_one(list, station)
        }
    }
}

/// Reads what follows the format specifier of a distress alert.
fn alert(list: &mut Cursor) -> Result<Call, Stop>
    ensures { Reads forms.Alerts list.old result list.new }
{
    let casualty = casualty(list)?;
    symbol(list, Letter::Exactly(EOS))?;
    Ok(Call::Alert(casualty))
}

/// Reads what follows the address of a call to one station.
fn addressed_to_one(list: &mut Cursor, to: Mmsi) -> Result<Call, Stop>
    ensures { Reads (forms.AddressedOne to) list.old result list.new }
{
    let category = category_unless_distress(list)?;
    after_category_to_one(list, to, category)
}

/// Reads what follows this category of a call to one station, or the category distress, which is `None`.
fn after_category_to_one(
    list: &mut Cursor,
    to: Mmsi,
    category: Option<Category>,
) -> Result<Call, Stop>
    ensures { Reads (forms.AfterCategoryToOne to category) list.old result list.new }
{
    match category {
        None => distress(list, &To::One(to)),
        Some(category) => sender_and_individual(list, to, category),
    }
}

/// Reads what follows the category of a call to one station.
fn sender_and_individual(list: &mut Cursor, to: Mmsi, category: Category) -> Result<Call, Stop>
    ensures { Reads (forms.SenderAndIndividual to category) list.old result list.new }
{
    let from = identity(list)?;
    individual(list, to, category, from)
}

/// Reads what follows the address of a call that is for more than one station.
fn addressed(list: &mut Cursor, to: &To) -> Result<Call, Stop>
    ensures { Reads (forms.Addressed to.now) list.old result list.new }
{
    let category = category_unless_distress(list)?;
    after_category(list, to, category)
}

/// Reads what follows this category of a call to more than one station, or the category distress, which is `None`.
fn after_category(list: &mut Cursor, to: &To, category: Option<Category>) -> Result<Call, Stop>
    ensures { Reads (forms.AfterCategory to.now category) list.old result list.new }
{
    match category {
        None => distress(list, to),
        Some(category) => sender_and_request(list, to, category),
    }
}

/// Reads what follows the category distress: an acknowledgement, a relay or the acknowledgement of one.
fn distress(list: &mut Cursor, to: &To) -> Result<Call, Stop>
    ensures { Reads (forms.Distress to.now) list.old result list.new }
{
    let from = identity(list)?;
    after_relayer(list, to, from)
}

/// Reads what follows the sender of a distress call that isn't an alert.
fn after_relayer(list: &mut Cursor, to: &To, from: Mmsi) -> Result<Call, Stop>
    ensures { Reads (forms.AfterRelayer to.now from) list.old result list.new }
{
    let is_ack = distress_telecommand(list, to)?;
    after_distress_telecommand(list, to, from, is_ack)
}

/// Reads what follows the telecommand of a distress call: that of an acknowledgement, or of a relay.
fn after_distress_telecommand(
    list: &mut Cursor,
    to: &To,
    from: Mmsi,
    is_ack: bool,
) -> Result<Call, Stop>
    ensures { Reads (forms.AfterDistressTelecommand to.now from is_ack) list.old result list.new }
{
    if is_ack {
        ack(list, from)
    } else {
        relay(list, to, from)
    }
}

/// Reads what follows the telecommand of a distress acknowledgement.
fn ack(list: &mut Cursor, from: Mmsi) -> Result<Call, Stop>
    ensures { Reads (forms.Acks from) list.old result list.new }
{
    let casualty = casualty(list)?;
    symbol(list, Letter::Exactly(EOS))?;
    Ok(Call::Ack { from, casualty })
}

/// Reads what follows the telecommand of a distress relay, or of its acknowledgement.
fn relay(list: &mut Cursor, to: &To, from: Mmsi) -> Result<Call, Stop>
    ensures { Reads (forms.Relays to.now from) list.old result list.new }
{
    let casualty = casualty(list)?;
    let end = end(list)?;
    Ok(relay_of(to, from, casualty, end))
}

/// A relay or the acknowledgement of one, by its end of sequence.
fn relay_of(to: &To, from: Mmsi, casualty: Casualty, end: End) -> Call
    ensures { result ≡ forms.relay to.now from casualty end }
{
    let to = *to;
    match end {
        End::Reply => Call::RelayAck { to, from, casualty },
        End::Ask => Call::Relay {
            to,
            from,
            casualty,
            ask: true,
        },
        End::Plain => Call::Relay {
            to,
            from,
            casualty,
            ask: false,
        },
    }
}

/// Reads what follows the category of a call that is for more than one station.
fn sender_and_request(list: &mut Cursor, to: &To, category: Category) -> Result<Call, Stop>
    ensures { Reads (forms.SenderAndRequest to.now category) list.old result list.new }
{
    let from = identity(list)?;
    broadcast(list, to, category, from)
}

/// Reads what follows the sender in a call that is for more than one station.
fn broadcast(list: &mut Cursor, to: &To, category: Category, from: Mmsi) -> Result<Call, Stop>
    ensures { Reads (forms.Requests to.now category from) list.old result list.new }
{
    let first = first(list)?;
    let second = second(list)?;
    let f1 = field(list)?;
    let f2 = field(list)?;
    symbol(list, Letter::Exactly(EOS))?;
    Ok(request_of(to, category, from, first, second, f1, f2))
}

/// The call with this address.
fn request_of(
    to: &To,
    category: Category,
    from: Mmsi,
    first: First,
    second: Second,
    f1: Field,
    f2: Field,
) -> Call
    ensures { result ≡ forms.request to.now category from first second f1 f2 }
{
    match *to {
        To::All => Call::AllShips {
            category,
            from,
            first,
            second,
            f1,
            f2,
        },
        To::Area(area) => Call::AreaCall {
            area,
            category,
            from,
            first,
            second,
            f1,
            f2,
        },
        To::Group(group) => Call::GroupCall {
            group,
            category,
            from,
            first,
            second,
            f1,
            f2,
        },
        To::One(to) => Call::Individual {
            to,
            category,
            from,
            first,
            second,
            message: Message::Fields(f1, f2),
            end: End::Plain,
        },
    }
}
