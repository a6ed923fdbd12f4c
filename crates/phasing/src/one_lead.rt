//! The test of one lead, slot by slot, as its definition says it.
ghost use Rattle.std.specs.Prelude.{◌≡◌, ℕ, ◌-◌, ◌<◌, ◌≤◌, length, pos, negsuc, ◌-ℤ◌, ◌≤ℤ◌};
ghost use Rattle.ten_unit.specs.Word.{word_of};
ghost use Rattle.phasing.specs.Origin as sequence;
ghost use Rattle.phasing.specs.inside.Marked.{AreRxWords};
ghost use Rattle.phasing.specs.Slot as diversity;

use crate::reception::{LAST_LEAD, LEAD_OF_FIRST, LONGEST, elements};
use dsc_symbols::phasing::{DX, RX_0, RX_1, RX_2, RX_3, RX_4, RX_5, RX_6, RX_7};
use ten_unit::{Element, is_same, is_word, word};

/// Whether a slot shows the symbol of which this is the word.
fn has(e: &[Element], lead: u32, slot: u16, word: &[Element; 10]) -> bool
    requires length { length e.now ≤ LONGEST }
    requires lead { lead ≤ LAST_LEAD }
    ensures { (v : ℕ) → word.now ≡ word_of v → result ≡ diversity.shows e.now lead slot v }
{
    is_same(elements(e, lead, slot), word)
}

/// Whether a slot shows a symbol from 0 to 127.
fn shows(e: &[Element], lead: u32, slot: u16, symbol: u8) -> bool
    requires length { length e.now ≤ LONGEST }
    requires lead { lead ≤ LAST_LEAD }
    requires symbol { symbol < 128 }
    ensures { result ≡ diversity.shows e.now lead slot symbol }
{
    is_word(elements(e, lead, slot), symbol)
}

/// How many DX slots show their phasing symbol.
fn dx_right(e: &[Element], lead: u32) -> usize
    requires length { length e.now ≤ LONGEST }
    requires lead { lead ≤ LAST_LEAD }
    ensures { result ≡ sequence.dx_right e.now lead }
{
    [0, 2, 4, 6, 8, 10]
        .iter()
        .filter(|slot| shows(e, lead, **slot, DX))
        .count()
}

/// The words of the phasing symbols RX 7 down to RX 0, which are in the RX slots 1, 3, .. 15.
pub(crate) fn rx_words() -> [[Element; 10]; 8]
    ensures { AreRxWords result }
{
    [
        word(RX_7),
        word(RX_6),
        word(RX_5),
        word(RX_4),
        word(RX_3),
        word(RX_2),
        word(RX_1),
        word(RX_0),
    ]
}

/// How many RX slots show theirs, of which these are the words.
fn rx_right(e: &[Element], lead: u32, words: &[[Element; 10]; 8]) -> usize
    requires length { length e.now ≤ LONGEST }
    requires lead { lead ≤ LAST_LEAD }
    requires words { AreRxWords words.now }
    ensures { result ≡ sequence.rx_right e.now lead }
{
    let [a, b, c, d, f, g, h, i] = words;
    usize::from(has(e, lead, 1, a))
        + usize::from(has(e, lead, 3, b))
        + usize::from(has(e, lead, 5, c))
        + usize::from(has(e, lead, 7, d))
        + usize::from(has(e, lead, 9, f))
        + usize::from(has(e, lead, 11, g))
        + usize::from(has(e, lead, 13, h))
        + usize::from(has(e, lead, 15, i))
}

/// Whether enough phasing symbols are right at a lead. Without an RX one the DX slots need no look.
pub(crate) fn is_phased(e: &[Element], lead: u32, words: &[[Element; 10]; 8]) -> bool
    requires length { length e.now ≤ LONGEST }
    requires lead { lead ≤ LAST_LEAD }
    requires words { AreRxWords words.now }
    ensures { result ≡ sequence.is_phased e.now lead }
{
    let rx = rx_right(e, lead, words);
    if rx == 0 {
        return false;
    }
    is_enough(dx_right(e, lead), rx)
}

/// Whether so many right phasing symbols are enough.
fn is_enough(dx: usize, rx: usize) -> bool
    ensures { result ≡ sequence.is_enough dx rx }
{
    dx >= 2 && rx >= 1 || rx >= 2 && dx >= 1 || rx >= 3
}

/// Whether an origin from -150 to 1,000,000 is phased in a reception (ITU-R M.493, phasing sequence): whether at least
/// two DX and one RX phasing symbols are right there, or two RX and one DX, or three RX. It tests this one origin;
/// `lead` and `first_phased` search many at once.
pub fn phased(e: &[Element], o: i32) -> bool
    requires length { length e.now ≤ LONGEST }
    requires from { negsuc (LEAD_OF_FIRST - 1) ≤ℤ o }
    requires to { o ≤ℤ pos LONGEST }
    ensures { (lead : ℕ) → o ≡ pos lead -ℤ pos LEAD_OF_FIRST → result ≡ sequence.is_phased e.now lead }
{
    is_phased(e, (o + LEAD_OF_FIRST as i32) as u32, &rx_words())
}
