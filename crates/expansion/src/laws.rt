//! Laws: each function here does nothing, and its contract is a theorem over definitions.
ghost use Rattle.std.specs.Prelude.{◌≡◌, ℕ, ◌<◌, ◌≤◌, All, List, [], ◌∷◌, ◌++◌, length, Result, Ok};
ghost use Rattle.symbol_reader.specs.declared.refusals.ReadRefusal.{ReadRefusal};
ghost use Rattle.call_values.specs.declared.choices.End.{End};
ghost use Rattle.expansion.specs.declared.bounds.TheConstants as bounds;
ghost use Rattle.expansion.specs.declared.last_digits.TheConstants as last_digits;
ghost use Rattle.expansion.specs.declared.specifiers.TheConstants as specifiers;
ghost use Rattle.expansion.specs.declared.values.Sets.{Sets};
ghost use Rattle.expansion.specs.Expansions.{IsExpansion};
ghost use Rattle.expansion.specs.Spelling.{spell, through_check};
ghost use Rattle.expansion.specs.Reading.{IsReading};

/// The law that these are the bounds of the sets.
pub fn bounds_of_sets()
    ensures last_enhancement { bounds.LAST_ENHANCEMENT ≡ 99999999 }
    ensures last_speed { bounds.LAST_SPEED ≡ 9999 }
    ensures last_course { bounds.LAST_COURSE ≡ 3599 }
{}

/// The law that no list belongs to two expansions, nor to one with two ends of sequence.
pub fn one_list()
    ensures { (x y : Sets) (e f : End) → IsExpansion x → IsExpansion y → spell x e ≡ spell y f → (x ≡ y) × (e ≡ f) }
{}

/// The law that with one end of sequence no expansion's list up to its check begins another's.
pub fn fronts_differ()
    ensures { (x y : Sets) (e : End) (rest : List ℕ) → IsExpansion x → IsExpansion y
        → through_check y e ≡ through_check x e ++ rest → (x ≡ y) × (rest ≡ []) }
{}

/// The law that an expansion's list has from 6 to 15 symbols.
pub fn lists_are_short()
    ensures { (x : Sets) (e : End) → IsExpansion x → (6 ≤ length (spell x e)) × (length (spell x e) ≤ 15) }
{}

/// The law that every symbol of an expansion's list is a character's, below 128.
pub fn lists_are_characters()
    ensures { (x : Sets) (e : End) → IsExpansion x → All (λ symbol. symbol < 128) (spell x e) }
{}

/// The law that of a list which begins with an expansion's list, whatever follows, reading with its end of sequence can
/// answer nothing but this expansion and its length.
pub fn read_back()
    ensures { (x : Sets) (e : End) (rest : List ℕ) (answer : Result (Sets × ℕ) ReadRefusal)
        → IsExpansion x → IsReading e (spell x e ++ rest) answer → answer ≡ Ok (x, length (spell x e)) }
{}

/// The law that the specifiers of the sets of an expansion have these numbers, and these last two digits (this
/// project's profile).
pub fn expansion_numbers()
    ensures enhanced_position { specifiers.ENHANCED_POSITION ≡ 100 }
    ensures speed { specifiers.SPEED ≡ 102 }
    ensures course { specifiers.COURSE ≡ 103 }
    ensures last_of_enhanced_position { last_digits.ENHANCED_POSITION ≡ 0 }
    ensures last_of_speed { last_digits.SPEED ≡ 2 }
    ensures last_of_course { last_digits.COURSE ≡ 3 }
{}
