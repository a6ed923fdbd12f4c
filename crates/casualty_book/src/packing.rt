//! A row as a key of 32 bytes, for fast comparisons.
ghost use Rattle.std.specs.Prelude.{◌≡◌, ◌+◌, ◌≤◌, ◌++◌, IfSome, length};
ghost use Rattle.arrayvec.specs.ArrayVec.{array_vec_len};
ghost use Rattle.sentence_frame.specs.Texts.{AreDigits};
ghost use Rattle.casualty_book.specs.Rows.{IsLawful};
ghost use Rattle.casualty_book.specs.inside.Packing as packing;
ghost use Rattle.casualty_book.specs.inside.Packing.{number_of, digits_of, digits_in, key_order, key_total, order_behind};
ghost use Rattle.std.proofs.Common.{refl};
ghost use Rattle.std.specs.Cmp.{eq_by_cmp_equiv, partial_equiv_from_equiv, partial_order_from_total};
ghost use Rattle.std.specs.Ordering.{eq_by_cmp, as_partial_cmp};

use crate::rows::{BookKind, BookRow};
use arrayvec::ArrayVec;
use std::alloc::AllocError;
use std::cmp::Ordering;

/// What a list's first digit counts in its number: 16 to the power of 15.
pub(crate) const FIRST_WEIGHT: u64 = 1 << 60;

/// A row as a key of 32 bytes: its wide fields come first. Keys are ordered like their rows, and compared faster:
/// digits are one number, and nothing is 0.
#[derive(Drop)]
pub(crate) struct Packed {
    pub(crate) casualty: u64,
    pub(crate) from: u64,
    pub(crate) place: u64,
    pub(crate) time: u16,
    pub(crate) kind: BookKind,
    pub(crate) nature: u8,
    pub(crate) second: u8,
}

impl PartialEq for Packed {
    ghost eq = { eq_by_cmp key_order };

    ghost laws = { partial_equiv_from_equiv (eq_by_cmp_equiv key_total) };

    fn eq(&self, other: &Packed) -> bool {
        self.cmp(other) == Ordering::Equal
    }
}

impl Eq for Packed {
    ghost laws = { eq_by_cmp_equiv key_total };
}

impl PartialOrd for Packed {
    ghost partial_cmp = { as_partial_cmp key_order };

    ghost laws = { partial_order_from_total key_total };

    fn partial_cmp(&self, other: &Packed) -> Option<Ordering> {
        Some(self.cmp(other))
    }
}

impl Ord for Packed {
    ghost cmp = { key_order };

    ghost total = { key_total };

    ghost matches_partial_cmp = { λ a b. refl };

    ghost matches_eq = { λ a b. refl };

    // Two tests of the casualty make a search in the set faster than a match on its order.
    fn cmp(&self, other: &Packed) -> Ordering {
        if self.casualty < other.casualty {
            Ordering::Less
        } else if self.casualty > other.casualty {
            Ordering::Greater
        } else {
            self.cmp_behind(other)
        }
    }
}

impl Packed {
    /// How keys of one casualty compare.
    fn cmp_behind(&self, other: &Packed) -> Ordering
        ensures { result ≡ order_behind self.now other.now }
    {
        self.kind
            .cmp(&other.kind)
            .then(self.from.cmp(&other.from))
            .then(self.nature.cmp(&other.nature))
            .then(self.place.cmp(&other.place))
            .then(self.time.cmp(&other.time))
            .then(self.second.cmp(&other.second))
    }
}

impl Clone for Packed {
    ghost is_clone = { λ key copy. copy ≡ key };

    fn clone(&self) -> Result<Packed, AllocError> {
        Ok(Packed {
            casualty: self.casualty,
            kind: self.kind,
            from: self.from,
            nature: self.nature,
            place: self.place,
            time: self.time,
            second: self.second,
        })
    }
}

/// The number of at most sixteen digits.
#[tactic(auto, unfolding(crate::specs::inside::Packing::number_from))]
fn number_of(digits: &[u8]) -> u64
    requires long { length digits.now ≤ 16 }
    requires digits { AreDigits digits.now }
    ensures { result ≡ number_of digits.now }
{
    let mut number = 0;
    let mut weight = FIRST_WEIGHT;
    for digit in digits {
        number += (u64::from(*digit) + 1) * weight;
        weight /= 16;
    }
    number
}

/// The digits of a number.
fn digits_of(number: u64) -> ArrayVec<u8, 16>
    ensures { result.items ≡ digits_of number }
{
    let mut digits = ArrayVec::new();
    push_digits(&mut digits, 16, number);
    digits
}

/// Appends at most so many digits of a number.
#[tactic(auto, unfolding(crate::specs::inside::Packing::digits_in))]
fn push_digits(digits: &mut ArrayVec<u8, 16>, slots: usize, number: u64)
    requires { array_vec_len digits.old + slots ≤ 16 }
    ensures { digits.new.items ≡ digits.old.items ++ digits_in slots number }
{
    let first = number / FIRST_WEIGHT;
    if slots > 0 && first > 0 {
        digits.push((first - 1) as u8);
        push_digits(digits, slots - 1, number % FIRST_WEIGHT * 16);
    }
}

/// The ten digits of a number.
fn ten_digits_of(number: u64) -> [u8; 10]
    requires { length (digits_of number) ≡ 10 }
    ensures { result ≡ digits_of number }
{
    let mut digits = [0; 10];
    digits.copy_from_slice(digits_of(number).as_slice());
    digits
}

/// Nothing is 0, and a number one more.
fn code(number: Option<u8>) -> u8
    requires { IfSome number (λ n. n ≤ 99) }
    ensures { result ≡ packing.code number }
{
    match number {
        None => 0,
        Some(number) => number + 1,
    }
}

/// What a code stands for.
fn told(code: u8) -> Option<u8>
    ensures { result ≡ packing.told code }
{
    code.checked_sub(1)
}

/// The key of a row.
pub(crate) fn pack(row: &BookRow) -> Packed
    requires { IsLawful row.now }
    ensures { result ≡ packing.pack row.now }
{
    Packed {
        casualty: number_of(&row.casualty),
        kind: row.kind,
        from: number_of(&row.from),
        nature: code(row.nature),
        place: number_of(row.place.as_slice()),
        time: match row.time {
            None => 0,
            Some(time) => time + 1,
        },
        second: code(row.second),
    }
}

/// The row of a key.
pub(crate) fn unpack(key: &Packed) -> BookRow
    requires { IsLawful (packing.unpack key.now) }
    ensures { result ≡ packing.unpack key.now }
{
    BookRow {
        casualty: ten_digits_of(key.casualty),
        kind: key.kind,
        from: ten_digits_of(key.from),
        nature: told(key.nature),
        place: digits_of(key.place),
        time: key.time.checked_sub(1),
        second: told(key.second),
    }
}
