//! Laws: each function here does nothing, and its contract is a theorem over definitions.
ghost use Rattle.std.specs.Prelude.{◌≡◌, ℕ, ◌||◌, List};
ghost use Rattle.slot_evidence.specs.declared.places.Seen.{Seen};
ghost use Rattle.slot_evidence.specs.Facts.{Facts, Symbols, union};
ghost use Rattle.slot_evidence.specs.Seen.{IsSeen};
ghost use Rattle.slot_evidence.specs.Sheet.{IsSheet, IsEnds, IsMeet, facts_in};
ghost use Rattle.slot_evidence.specs.Alike.{AreAlike};

/// A set of symbols is kept in one way.
pub fn one_seen()
    ensures { (S : Symbols) (a b : Seen) → IsSeen S a → IsSeen S b → a ≡ b }
{}

/// Facts have one sheet, and sets with the same facts have the same.
pub fn one_sheet()
    ensures one { (F : Facts) (s t : List Seen) → IsEnds F s → IsEnds F t → s ≡ t }
    ensures same { (F G : Facts) (s t : List Seen) → ((p v : ℕ) → F p v ≡ G p v) → IsEnds F s → IsEnds G t → s ≡ t }
{}

/// The sheet of united facts is the same in whatever order, in whatever groups and however often they were united.
pub fn unions_forget_order()
    ensures order { (F G : Facts) (s t : List Seen) → IsEnds (union F G) s → IsEnds (union G F) t → s ≡ t }
    ensures groups { (F G H : Facts) (s t : List Seen) → IsEnds (union (union F G) H) s → IsEnds (union F (union G H)) t
        → s ≡ t }
    ensures repeats { (F : Facts) (s t : List Seen) → IsEnds (union F F) s → IsEnds F t → s ≡ t }
{}

/// `Sheet::meet` gives the same in whatever order, in whatever groups and however often sheets were taken in: `IsMeet`
/// is its contract.
pub fn meet_forgets_order()
    ensures order { (a b ab ba : List Seen) → IsSheet a → IsSheet b → IsMeet a b ab → IsMeet b a ba → ab ≡ ba }
    ensures groups { (a b c ab bc left right : List Seen) → IsSheet a → IsSheet b → IsSheet c
        → IsMeet a b ab → IsMeet ab c left → IsMeet b c bc → IsMeet a bc right → left ≡ right }
    ensures repeats { (a aa : List Seen) → IsSheet a → IsMeet a a aa → aa ≡ a }
{}

/// Two sets of symbols are alike where each symbol of the one is between two of the other, or is one of them. Alike
/// sets are kept alike, unions of alike sets are alike, and the facts of a sheet are alike those of which it keeps the
/// ends.
pub fn ends_are_kept()
    ensures kept { (S T : Symbols) (x : Seen) → AreAlike S T → IsSeen S x → IsSeen T x }
    ensures itself { (S : Symbols) → AreAlike S S }
    ensures unions { (S T U V : Symbols) → AreAlike S T → AreAlike U V → AreAlike (λ v. S v || U v) (λ v. T v || V v) }
    ensures sheet { (F : Facts) (sheet : List Seen) (p : ℕ) → IsEnds F sheet → AreAlike (F p) (facts_in sheet p) }
{}
