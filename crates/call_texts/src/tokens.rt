//! Values that texts have as one token, and those of one number.
#![tactic(auto, unfolding(line_grammar::specs::inside::Reading::read_token))]

ghost use Rattle.std.specs.Prelude.{◌≡◌, IfOk, IfErr, Ok, Err, List, ℕ};
ghost use Rattle.call_grammar.specs.Spelling as spelling;
ghost use Rattle.call_texts.specs.CallGrammar as grammar;
ghost use Rattle.call_texts.specs.CallParts as texts;
ghost use Rattle.line_grammar.specs.Shapes.{digits};
ghost use Rattle.line_grammar.specs.Tokens.{Token};
ghost use Rattle.line_grammar.specs.inside.Reading.{read_token};

use call_values::bounds::IDENTITIES;
use call_values::{Category, Comm, End, First, Mmsi, Nature, Second};
use dsc_symbols::sets::{
    BELOW_DISTRESS, COMMS, ENDS, FIRSTS, NATURES, RELAY_ENDS, SECONDS, TEST_ENDS,
};
use dsc_symbols::{categories, ends};
use line_grammar::{Left, fixed_number};

/// A value that texts have as one token.
pub trait Token: Copy {
    /// The token.
    ghost token: { Token };

    /// Its text.
    ghost text: { Self → List ℕ };

    /// The value at the front of these bytes, and what follows it.
    fn read(bytes: &[u8]) -> Result<(Self, &[u8]), Left>
        ensures value { IfOk result (λ parts. read_token token bytes.now ≡ Ok (text parts.0, parts.1.now)) }
        ensures left { IfErr result (λ left. read_token token bytes.now ≡ Err left) };
}

/// The end of sequence of a relay.
#[derive(Clone, Copy, Debug, PartialEq, Eq)]
pub struct RelayEnd {
    /// Whether the relay asks for an acknowledgement.
    pub ask: bool,
}

/// The end of sequence of a test.
#[derive(Clone, Copy, Debug, PartialEq, Eq)]
pub struct TestEnd {
    /// Whether the test is a reply.
    pub reply: bool,
}

/// The nine digits of an identity.
impl Token for Mmsi {
    ghost token = { grammar.identity };

    ghost text = { λ v. digits 9 v };

    fn read(bytes: &[u8]) -> Result<(Mmsi, &[u8]), Left> {
        let (number, rest) = fixed_number(9, &IDENTITIES, bytes)?;
        Ok((Mmsi::new(number as u32).unwrap(), rest))
    }
}

/// A nature of distress in three digits.
impl Token for Nature {
    ghost token = { grammar.nature };

    ghost text = { λ v. digits 3 v };

    fn read(bytes: &[u8]) -> Result<(Nature, &[u8]), Left> {
        let (symbol, rest) = fixed_number(3, &NATURES, bytes)?;
        Ok((Nature::new(symbol as u8).unwrap(), rest))
    }
}

/// Subsequent communications in three digits.
impl Token for Comm {
    ghost token = { grammar.comm };

    ghost text = { λ v. digits 3 v };

    fn read(bytes: &[u8]) -> Result<(Comm, &[u8]), Left> {
        let (symbol, rest) = fixed_number(3, &COMMS, bytes)?;
        Ok((Comm::new(symbol as u8).unwrap(), rest))
    }
}

/// A first telecommand in three digits.
impl Token for First {
    ghost token = { grammar.first_command };

    ghost text = { λ v. digits 3 v };

    fn read(bytes: &[u8]) -> Result<(First, &[u8]), Left> {
        let (symbol, rest) = fixed_number(3, &FIRSTS, bytes)?;
        Ok((First::new(symbol as u8).unwrap(), rest))
    }
}

/// A second telecommand in three digits.
impl Token for Second {
    ghost token = { grammar.second_command };

    ghost text = { λ v. digits 3 v };

    fn read(bytes: &[u8]) -> Result<(Second, &[u8]), Left> {
        let (symbol, rest) = fixed_number(3, &SECONDS, bytes)?;
        Ok((Second::new(symbol as u8).unwrap(), rest))
    }
}

/// A category in three digits.
impl Token for Category {
    ghost token = { grammar.category };

    ghost text = { λ v. digits 3 (spelling.category_symbol v) };

    fn read(bytes: &[u8]) -> Result<(Category, &[u8]), Left> {
        let (symbol, rest) = fixed_number(3, &BELOW_DISTRESS, bytes)?;
        let category = match symbol as u8 {
            categories::ROUTINE => Category::Routine,
            categories::SAFETY => Category::Safety,
            _ => Category::Urgency,
        };
        Ok((category, rest))
    }
}

/// The end of sequence of a relay in three digits.
impl Token for RelayEnd {
    ghost token = { grammar.symbol grammar.relay_ends };

    ghost text = { λ v. digits 3 (texts.relay_end v.ask) };

    fn read(bytes: &[u8]) -> Result<(RelayEnd, &[u8]), Left> {
        let (symbol, rest) = fixed_number(3, &RELAY_ENDS, bytes)?;
        let end = RelayEnd {
            ask: symbol as u8 == ends::ACKNOWLEDGE_RQ,
        };
        Ok((end, rest))
    }
}

/// The end of sequence of a test in three digits.
impl Token for TestEnd {
    ghost token = { grammar.symbol grammar.test_ends };

    ghost text = { λ v. digits 3 (texts.test_end v.reply) };

    fn read(bytes: &[u8]) -> Result<(TestEnd, &[u8]), Left> {
        let (symbol, rest) = fixed_number(3, &TEST_ENDS, bytes)?;
        let end = TestEnd {
            reply: symbol as u8 == ends::ACKNOWLEDGE_BQ,
        };
        Ok((end, rest))
    }
}

/// The end of sequence of a call to one station in three digits.
impl Token for End {
    ghost token = { grammar.symbol grammar.all_ends };

    ghost text = { λ v. digits 3 (spelling.end_symbol v) };

    fn read(bytes: &[u8]) -> Result<(End, &[u8]), Left> {
        let (symbol, rest) = fixed_number(3, &ENDS, bytes)?;
        let end = match symbol as u8 {
            ends::ACKNOWLEDGE_RQ => End::Ask,
            ends::ACKNOWLEDGE_BQ => End::Reply,
            _ => End::Plain,
        };
        Ok((end, rest))
    }
}
