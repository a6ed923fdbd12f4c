//! Laws: each function here does nothing, and its contract is a theorem over definitions.
ghost use Rattle.std.specs.Prelude.{◌≡◌, ◌+◌, ◌-◌, ◌≤◌, ℕ, List, length, Ok, Err, true};
ghost use Rattle.line_grammar.specs.Columns.{ReadsAs, IsColumn, with_column};
ghost use Rattle.line_grammar.specs.Grammar.{AreParts, Grammar, Parts, Spells, written};
ghost use Rattle.line_grammar.specs.Repeats.{Grow, SpellsSome};
ghost use Rattle.line_grammar.specs.inside.Reading.{read};
ghost use Rattle.line_grammar.specs.inside.Soundness.{is_sound, is_unambiguous};

use crate::decimal::LARGEST_NUMBER;

/// The law that the largest number is this one.
pub fn largest_number()
    ensures { LARGEST_NUMBER ≡ 4294967295 }
{}

/// The plain reader of a sound and unambiguous grammar answers each line with its one reading, or with its column.
pub fn grammars_are_read()
    ensures { (G : Grammar) (bytes : List ℕ) → is_sound G ≡ true → is_unambiguous G ≡ true
        → ReadsAs (Spells G) bytes (with_column bytes (read G bytes)) }
{}

/// The plain reader of a sound and unambiguous grammar reads back the parts of which a line was written.
pub fn written_lines_are_read()
    ensures { (G : Grammar) (parts : Parts) → is_sound G ≡ true → is_unambiguous G ≡ true → AreParts G parts
        → read G (written G parts) ≡ Ok parts }
{}

/// Where a line may have parts any number of times, there is a grammar for every number, and they grow. Where the plain
/// readers of all that are large enough stop with so many bytes left, this is the column of a line of all of them.
pub fn growing_grammars_are_read()
    ensures { (G : ℕ → Grammar) (least : ℕ) (bytes : List ℕ) (left : ℕ) → Grow G → ((n : ℕ) → is_sound (G n) ≡ true)
        → ((n : ℕ) → least ≤ n → read (G n) bytes ≡ Err left)
        → IsColumn (SpellsSome G) bytes (length bytes + 1 - left) }
{}
