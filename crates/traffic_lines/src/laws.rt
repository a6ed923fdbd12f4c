//! Laws: each function here does nothing, and its contract is a theorem over definitions.
ghost use Rattle.std.specs.Prelude.{◌≡◌, ◌∷◌, ℕ, List};
ghost use Rattle.traffic_lines.specs.declared.lines.TrafficLine.{TrafficLine};
ghost use Rattle.traffic_lines.specs.declared.worlds.WorldLine.{WorldLine};
ghost use Rattle.traffic_lines.specs.Lines.{IsFirstByte, IsLineText};
ghost use Rattle.traffic_lines.specs.Worlds.{IsWorldLineText};

use call_texts::texts_tell_calls_apart;

/// The law that a line says one thing, wherever it is.
pub fn one_traffic_line()
    ensures { (a b : TrafficLine) (text : List ℕ) → IsLineText a text → IsLineText b text → a ≡ b }
{
    texts_tell_calls_apart();
}

/// The law that a line of a file of an exchange says one thing, wherever it is.
pub fn one_world_line()
    ensures { (a b : WorldLine) (text : List ℕ) → IsWorldLineText a text → IsWorldLineText b text → a ≡ b }
{
    texts_tell_calls_apart();
}

/// The law that each line has a first byte, which is its kind's: so it is no empty line, comment, reception or
/// evidence.
pub fn traffic_lines_begin()
    ensures { (line : TrafficLine) (text : List ℕ) → IsLineText line text
        → (b : ℕ) × (rest : List ℕ) × IsFirstByte line b × (text ≡ b ∷ rest) }
{}
