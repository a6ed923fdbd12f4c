//! What may come after a call's text: nothing, or an expansion.
ghost use Rattle.line_grammar.specs.Grammar as line;
ghost use Rattle.line_grammar.specs.Grammar.{Grammar, Parts};
ghost use Rattle.call_texts.specs.CallGrammar as grammar;
ghost use Rattle.call_texts.specs.inside.Expansions as inside;
ghost use Rattle.line_grammar.specs.Sections.{ReadsTail};

use crate::expansions::expansion_or_end;
use expansion::Expansion;
use line_grammar::{Left, end};

/// What may come after a call, to the end of its text.
pub trait Tail: Copy {
    /// Its grammar.
    ghost grammar: { Grammar };

    /// Its parts.
    ghost parts: { Self → Parts };

    /// Reads these bytes whole.
    fn read(bytes: &[u8]) -> Result<Self, Left>
        ensures { ReadsTail grammar parts bytes.now result };
}

/// Nothing may follow.
impl Tail for () {
    ghost grammar = { line.finish };

    ghost parts = { λ nothing. line.none };

    #[tactic(auto, unfolding(line_grammar::specs::inside::Reading::read))]
    fn read(bytes: &[u8]) -> Result<(), Left> {
        end(bytes)
    }
}

/// An expansion may follow.
impl Tail for Option<Expansion> {
    ghost grammar = { grammar.perhaps grammar.expansion line.finish };

    ghost parts = { inside.expansion_or_end };

    fn read(bytes: &[u8]) -> Result<Option<Expansion>, Left> {
        expansion_or_end(bytes)
    }
}
