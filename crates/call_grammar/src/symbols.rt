//! Readers of single symbols: format specifiers, categories, telecommands and ends of sequence.
ghost use Rattle.std.specs.Prelude.{◌≡◌, ◌∷◌, []};
ghost use Rattle.symbol_reader.specs.Letters.{Allows};
ghost use Rattle.symbol_reader.specs.inside.Reading.{Reads};
ghost use Rattle.call_grammar.specs.Spelling.{end_symbol};
ghost use Rattle.call_grammar.specs.inside.Grammar.{Firsts, Seconds, Blanks};
ghost use Rattle.call_grammar.specs.inside.Forms as forms;

use call_values::{Category, End, First, Second, To};
use cursor::Cursor;
use dsc_symbols::messages::NO_INFORMATION;
use dsc_symbols::{categories, ends, formats, telecommands};
use symbol_reader::{Letter, Stop, symbol};

/// The format specifiers by what follows them (ITU-R M.493, format specifier).
#[derive(Clone, Copy, Debug, PartialEq, Eq)]
pub enum Specifier {
    Alert,
    All,
    Area,
    Group,
    One,
}

/// What the first telecommand of a call to one station says of the rest of the call.
#[derive(Clone, Copy, Debug, PartialEq, Eq)]
pub enum Telecommand {
    Test,
    Position,
    Request(First),
}

/// Reads a format specifier.
pub fn format(list: &mut Cursor) -> Result<Specifier, Stop>
    ensures { Reads forms.Formats list.old result list.new }
{
    let symbol = symbol(list, Letter::Format)?;
    Ok(format_of_symbol(symbol))
}

/// The format specifier of this symbol.
fn format_of_symbol(symbol: u8) -> Specifier
    requires { Allows Letter.Format symbol }
    ensures { forms.format_symbol result ≡ symbol }
{
    match symbol {
        formats::DISTRESS => Specifier::Alert,
        formats::ALL_SHIPS => Specifier::All,
        formats::AREA => Specifier::Area,
        formats::GROUP => Specifier::Group,
        _ => Specifier::One,
    }
}

/// Reads the category of a call; `None` where it is distress.
pub fn category_unless_distress(list: &mut Cursor) -> Result<Option<Category>, Stop>
    ensures { Reads forms.Categories list.old result list.new }
{
    let symbol = symbol(list, Letter::Category)?;
    Ok(category_of_symbol(symbol))
}

/// The category of this symbol, `None` for distress.
fn category_of_symbol(symbol: u8) -> Option<Category>
    requires { Allows Letter.Category symbol }
    ensures { forms.category_or_distress result ≡ symbol }
{
    match symbol {
        categories::DISTRESS => None,
        categories::ROUTINE => Some(Category::Routine),
        categories::SAFETY => Some(Category::Safety),
        _ => Some(Category::Urgency),
    }
}

/// Reads an end of sequence.
pub fn end(list: &mut Cursor) -> Result<End, Stop>
    ensures { Reads forms.Endings list.old result list.new }
{
    let symbol = symbol(list, Letter::End)?;
    Ok(end_of_symbol(symbol))
}

/// The end of sequence of this symbol.
fn end_of_symbol(symbol: u8) -> End
    requires { Allows Letter.End symbol }
    ensures { end_symbol result ≡ symbol }
{
    match symbol {
        ends::ACKNOWLEDGE_RQ => End::Ask,
        ends::ACKNOWLEDGE_BQ => End::Reply,
        _ => End::Plain,
    }
}

/// Reads one of two symbols, and answers whether it is the first.
pub fn either(list: &mut Cursor, one: u8, other: u8) -> Result<bool, Stop>
    requires { one ≡ other → ⊥ }
    ensures { Reads (forms.Eithers one other) list.old result list.new }
{
    let symbol = symbol(list, Letter::Either(one, other))?;
    Ok(symbol == one)
}

/// Reads the telecommand after the sender of a distress call, and answers whether the call is an acknowledgement.
pub fn distress_telecommand(list: &mut Cursor, to: &To) -> Result<bool, Stop>
    ensures { Reads (forms.DistressTelecommands to.now) list.old result list.new }
{
    let symbol = symbol(list, distress_telecommand_letter(to))?;
    Ok(symbol == telecommands::DISTRESS_ACKNOWLEDGEMENT)
}

/// The telecommands that may follow the sender of a distress call with this address: an acknowledgement is to all ships
/// alone.
fn distress_telecommand_letter(to: &To) -> Letter
    ensures { result ≡ forms.distress_telecommand_letter to.now }
{
    match to {
        To::All => Letter::Either(
            telecommands::DISTRESS_ACKNOWLEDGEMENT,
            telecommands::DISTRESS_RELAY,
        ),
        _ => Letter::Exactly(telecommands::DISTRESS_RELAY),
    }
}

/// Reads the first telecommand of a call to one station.
pub fn first_to_one(list: &mut Cursor) -> Result<Telecommand, Stop>
    ensures { Reads forms.Telecommands list.old result list.new }
{
    let symbol = symbol(list, Letter::FirstToOne)?;
    Ok(telecommand_of_symbol(symbol))
}

/// The first telecommand of this symbol in a call to one station.
fn telecommand_of_symbol(symbol: u8) -> Telecommand
    requires { Allows Letter.FirstToOne symbol }
    ensures lawful { forms.IsTelecommand result }
    ensures symbol { forms.telecommand_symbol result ≡ symbol }
{
    match symbol {
        telecommands::TEST => Telecommand::Test,
        telecommands::SHIP_POSITION => Telecommand::Position,
        _ => Telecommand::Request(First::new(symbol).unwrap()),
    }
}

/// Reads the first telecommand of a call that is for more than one station.
pub fn first(list: &mut Cursor) -> Result<First, Stop>
    ensures { Reads Firsts list.old result list.new }
{
    let symbol = symbol(list, Letter::First)?;
    Ok(First::new(symbol).unwrap())
}

/// Reads a second telecommand.
pub fn second(list: &mut Cursor) -> Result<Second, Stop>
    ensures { Reads Seconds list.old result list.new }
{
    let symbol = symbol(list, Letter::Second)?;
    Ok(Second::new(symbol).unwrap())
}

/// Reads five characters of no information.
pub fn blanks(list: &mut Cursor) -> Result<(), Stop>
    ensures { Reads (Blanks 5) list.old result list.new }
{
    let blank = Letter::Exactly(NO_INFORMATION);
    symbol(list, blank)?;
    symbol(list, blank)?;
    symbol(list, blank)?;
    symbol(list, blank)?;
    symbol(list, blank)?;
    Ok(())
}
