//! Laws: each function here does nothing, and its contract is a theorem over definitions.
ghost use Rattle.std.specs.Prelude.{◌≡◌, ℕ, ◌<◌, ◌≤◌, All, ◌⊎◌, ◌↔◌, List, [], ◌∷◌, ◌++◌, length, Result, Ok};
ghost use Rattle.call_values.specs.declared.calls.Call.{Call};
ghost use Rattle.call_values.specs.Calls.{IsCall};
ghost use Rattle.call_grammar.specs.Spelling.{spell, through_check, up_to_end, check_of};
ghost use Rattle.dsc_symbols.specs.Formats.{IsFormat};
ghost use Rattle.call_grammar.specs.Walk.{IsViable, IsOpen, IsAtEnd, IsAtCheck, IsDone};
ghost use Rattle.call_grammar.specs.Reading.{IsReading};
ghost use Rattle.symbol_reader.specs.declared.refusals.ReadRefusal.{ReadRefusal};

/// The law that no call's list up to its check begins another call's.
pub fn fronts_differ()
    ensures { (c d : Call) (rest : List ℕ) → IsCall c → IsCall d → through_check d ≡ through_check c ++ rest
        → (c ≡ d) × (rest ≡ []) }
{}

/// The law that up to its first end of sequence no call's list begins another's.
pub fn one_check_place()
    ensures { (c d : Call) (rest : List ℕ) → IsCall c → IsCall d → up_to_end d ≡ up_to_end c ++ rest
        → (c ≡ d) × (rest ≡ []) }
{}

/// The law that where the first end of sequence of some call is next, each symbol with which a call goes on is one, and
/// a check follows.
pub fn one_end_place()
    ensures { (l : List ℕ) (x : ℕ) → IsAtEnd l → IsViable (l ++ x ∷ []) → IsAtCheck (l ++ x ∷ []) }
{}

/// The law that lists which differ in their last symbol alone have different checks.
pub fn checks_tell_ends()
    ensures { (l : List ℕ) (a b : ℕ) → check_of (l ++ a ∷ []) ≡ check_of (l ++ b ∷ []) → a ≡ b }
{}

/// The law that no list belongs to two calls.
pub fn one_list()
    ensures { (c d : Call) → IsCall c → IsCall d → spell c ≡ spell d → c ≡ d }
{}

/// The law that a call's list has from 4 to 32 symbols.
pub fn lists_are_short()
    ensures { (c : Call) → IsCall c → (4 ≤ length (spell c)) × (length (spell c) ≤ 32) }
{}

/// The law that a list which still wants symbols up to a check isn't done.
pub fn open_is_not_done()
    ensures { (l : List ℕ) → (l ≡ []) ⊎ IsOpen l → IsDone l → ⊥ }
{}

/// The law that a symbol is a format specifier exactly where it begins some call's list, in which it comes twice.
pub fn formats_begin_calls()
    ensures { (f : ℕ) → IsFormat f ↔ IsViable (f ∷ f ∷ []) }
{}

/// The law that of a list which begins with a call's list, whatever follows, reading can answer nothing but this call
/// and its length.
pub fn read_back()
    ensures { (c : Call) (rest : List ℕ) (answer : Result (Call × ℕ) ReadRefusal)
        → IsCall c → IsReading (spell c ++ rest) answer → answer ≡ Ok (c, length (spell c)) }
{}

/// The law that every symbol of a call's list is a character's, below 128.
pub fn lists_are_characters()
    ensures { (c : Call) → IsCall c → All (λ symbol. symbol < 128) (spell c) }
{}
