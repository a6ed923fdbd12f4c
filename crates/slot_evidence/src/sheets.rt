//! Sheets: the ends of a set of facts for 64 places.
ghost use Rattle.std.specs.Prelude.{◌≡◌, ℕ, ◌||◌, ◌<◌, ◌≤◌, length, replicate, min, max, slice_index, slice_set};
ghost use Rattle.slot_evidence.specs.Facts.{Facts, Symbols, no_facts, one_fact, union};
ghost use Rattle.slot_evidence.specs.TwoNumbers.{AreInOrder, least_of, past_of, seen_between, seen_with};
ghost use Rattle.slot_evidence.specs.inside.Kept.{AreKept, seen_of};
ghost use Rattle.slot_evidence.specs.Seen.{IsSeen, IsLawful};
ghost use Rattle.slot_evidence.specs.Sheet.{IsEnds, IsMeet, IsSheet, seen_at, facts_in};

use crate::places::Seen;
use std::marker::Model;

/// What a set of facts showed of each of 64 places: the least symbol, or 128 for none, and the greatest plus one, or 0
/// for none. So two sheets meet by minima and maxima alone. Contracts see it as the list of what it keeps of each.
#[derive(Clone, Copy, Debug, PartialEq, Eq)]
pub struct Sheet {
    leasts: [u8; 64],
    pasts: [u8; 64],
}

impl Model for Sheet {
    ghost use Rattle.std.specs.Prelude.{List, map};
    ghost use Rattle.slot_evidence.specs.declared.places.Seen.{Seen};
    ghost use Rattle.slot_evidence.specs.TwoNumbers.{least_of, past_of};
    ghost use Rattle.slot_evidence.specs.inside.Kept.{AreKept, seen_of};
    ghost use Rattle.slot_evidence.specs.inside.Back.{leasts_back, pasts_back};

    ghost Value = { List Seen };

    ghost view = { λ s. seen_of s.leasts s.pasts };

    ghost invariant = { λ s. AreKept s.leasts s.pasts };

    ghost inverse = { λ l. record { leasts = map least_of l; pasts = map past_of l } };

    ghost inverse_ok = { λ s h i. record {
      leasts = leasts_back s.leasts s.pasts h.ordered i;
      pasts = pasts_back s.leasts s.pasts h.ordered i;
    } };
}

impl Sheet {
    /// The sheet that keeps these numbers.
    pub(crate) fn from_numbers(leasts: [u8; 64], pasts: [u8; 64]) -> Sheet
        requires { AreKept leasts pasts }
        ensures { result ≡ seen_of leasts pasts }
    {
        Sheet { leasts, pasts }
    }

    /// What the least symbol of each place and its greatest plus one say: 128 and 0 where no symbol was shown.
    pub fn between(leasts: [u8; 64], pasts: [u8; 64]) -> Sheet
        requires { (p : ℕ) → p < 64 → AreInOrder (slice_index leasts p) (slice_index pasts p) }
        ensures size { length result ≡ 64 }
        ensures each { (p : ℕ) → p < 64 → seen_at result p ≡ seen_between (slice_index leasts p) (slice_index pasts p) }
    {
        Sheet::from_numbers(leasts, pasts)
    }

    /// The sheet of no facts.
    pub fn empty() -> Sheet
        ensures ends { IsEnds no_facts result }
        ensures blank { result ≡ replicate 64 Seen.None }
    {
        Sheet::from_numbers([128; 64], [0; 64])
    }

    /// What the sheet says of a place below 64.
    pub fn at(&self, p: u8) -> Seen
        requires { p < 64 }
        ensures seen { result ≡ seen_at self.now p }
        ensures lawful { IsLawful result }
    {
        Seen::between(self.leasts[p as usize], self.pasts[p as usize])
    }

    /// The least symbol that the sheet keeps of a place below 64 and the greatest plus one: 128 and 0 where it keeps
    /// none.
    pub fn ends_at(&self, p: u8) -> (u8, u8)
        requires { p < 64 }
        ensures least { result.0 ≡ least_of (seen_at self.now p) }
        ensures past { result.1 ≡ past_of (seen_at self.now p) }
        ensures order { AreInOrder result.0 result.1 }
    {
        (self.leasts[p as usize], self.pasts[p as usize])
    }

    /// Takes in all that another sheet keeps: the sheet becomes that of both sets of facts together. The compiler makes
    /// it sixteen places a step.
    pub fn meet(&mut self, other: &Sheet)
        ensures { IsMeet self.old other.now self.new }
    {
        self.leasts = least(&self.leasts, &other.leasts);
        self.pasts = greatest(&self.pasts, &other.pasts);
    }

    /// Takes in that a place below 64 showed a symbol below 128.
    pub fn add(&mut self, p: u8, symbol: u8)
        requires place { p < 64 }
        requires symbol { symbol < 128 }
        ensures union { (F : Facts) → IsEnds F self.old → IsEnds (union F (one_fact p symbol)) self.new }
        ensures place { self.new ≡ slice_set self.old p (seen_with (seen_at self.old p) symbol) }
    {
        let least = self.leasts[p as usize].min(symbol);
        let past = self.pasts[p as usize].max(symbol + 1);
        self.leasts[p as usize] = least;
        self.pasts[p as usize] = past;
    }
}

/// The lesser number of each place.
fn least(ours: &[u8; 64], theirs: &[u8; 64]) -> [u8; 64]
    ensures places { length result ≡ 64 }
    ensures each { (p : ℕ) → p < 64 → slice_index result p ≡ min (slice_index ours.now p) (slice_index theirs.now p) }
{
    let mut numbers = *ours;
    for p in 0..64 {
        numbers[p] = ours[p].min(theirs[p]);
    }
    numbers
}

/// The greater number of each place.
fn greatest(ours: &[u8; 64], theirs: &[u8; 64]) -> [u8; 64]
    ensures places { length result ≡ 64 }
    ensures each { (p : ℕ) → p < 64 → slice_index result p ≡ max (slice_index ours.now p) (slice_index theirs.now p) }
{
    let mut numbers = *ours;
    for p in 0..64 {
        numbers[p] = ours[p].max(theirs[p]);
    }
    numbers
}

/// Every sheet keeps the ends of its own facts, so what is said of all facts with a sheet speaks of some.
pub fn sheet_has_facts(sheet: &Sheet)
    ensures { IsEnds (facts_in sheet.now) sheet.now }
{
    let _places = &sheet.leasts;
}

/// Every sheet has 64 places, and what it says of each is lawful, so what is said of lawful sheets speaks of all.
pub fn sheet_is_lawful(sheet: &Sheet)
    ensures { IsSheet sheet.now }
{
    let _places = &sheet.leasts;
}
