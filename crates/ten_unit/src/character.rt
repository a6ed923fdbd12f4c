//! Elements and words: the ten-unit code that detects errors (ITU-R M.493).
ghost use Rattle.std.specs.Prelude.{◌≡◌, ◌↔◌, List, ℕ, ◌<◌, ◌≤◌, ◌/◌, ◌%◌, IfSome, Some, true};
ghost use Rattle.ten_unit.specs.Word.{word_of, element, count_of_b};
ghost use Rattle.ten_unit.specs.Word as characters;
ghost use Rattle.ten_unit.specs.declared.character.Element.{Element};
ghost use Rattle.ten_unit.specs.Errors.{IsOneWay};
ghost use Rattle.ten_unit.specs.Signs as signs;
ghost use Rattle.ten_unit.specs.inside.Number.{weight as weight_of, number_of};

use crate::table::symbol_of;

/// How many elements a character has (ITU-R M.493, the ten-unit code).
pub const ELEMENTS: usize = 10;

/// An element on air: Y and B are the two tones. A received element may also be lost.
#[derive(Clone, Copy, Debug, Default, PartialEq, Eq)]
pub enum Element {
    Y,
    B,
    #[default]
    Lost,
}

/// The element of a sign: `Y`, `B`, and a lost one for any other byte (this project's profile).
pub fn element_of(sign: u8) -> Element
    ensures { result ≡ signs.element_of sign }
{
    match sign {
        b'Y' => Element::Y,
        b'B' => Element::B,
        _ => Element::Lost,
    }
}

/// The element of a number's last binary digit.
fn last_digit(number: u8) -> Element
    ensures { result ≡ element (number % 2) }
{
    if number % 2 == 1 {
        Element::Y
    } else {
        Element::B
    }
}

/// How many of the information elements are B.
fn count_b(information: &[Element; 7]) -> u8
    ensures count { result ≡ count_of_b information.now }
    ensures most { result ≤ 7 }
{
    let mut count = 0;
    for element in information {
        if matches!(element, Element::B) {
            count += 1;
        }
    }
    count
}

/// The ten elements of a symbol from 0 to 127: seven information elements, least significant first,
/// and the number of B among them in three, most significant first (ITU-R M.493, the ten-unit code).
pub fn word(symbol: u8) -> [Element; 10]
    requires { symbol < 128 }
    ensures { result ≡ word_of symbol }
{
    let a = last_digit(symbol);
    let b = last_digit(symbol / 2);
    let c = last_digit(symbol / 4);
    let d = last_digit(symbol / 8);
    let e = last_digit(symbol / 16);
    let f = last_digit(symbol / 32);
    let g = last_digit(symbol / 64);
    let count = count_b(&[a, b, c, d, e, f, g]);
    let h = last_digit(count / 4);
    let i = last_digit(count / 2);
    let j = last_digit(count);
    [a, b, c, d, e, f, g, h, i, j]
}

/// Whether these elements are those of a word. A list of another length is not.
pub fn is_same(w: &[Element], word: &[Element; 10]) -> bool
    ensures { result ≡ characters.elements_eq w.now word.now }
{
    w == word.as_slice()
}

/// Whether these elements are the word of a symbol from 0 to 127. A list of another length is no word.
pub fn is_word(w: &[Element], symbol: u8) -> bool
    requires { symbol < 128 }
    ensures { result ≡ characters.is_word w.now symbol }
{
    is_same(w, &word(symbol))
}

/// What an element counts in the number of ten.
fn weight(element: Element) -> u32
    ensures value { result ≡ weight_of element }
    ensures most { result ≤ 1024 }
{
    match element {
        Element::Y => 1,
        Element::B => 0,
        Element::Lost => 1024,
    }
}

/// The number of ten elements: the first one's bit is bit 0. A lost one brings it to 1,024 or more.
fn number(w: &[Element; 10]) -> u32
    ensures { result ≡ number_of w.now }
{
    let [a, b, c, d, e, f, g, h, i, j] = *w;
    weight(a)
        + 2 * weight(b)
        + 4 * weight(c)
        + 8 * weight(d)
        + 16 * weight(e)
        + 32 * weight(f)
        + 64 * weight(g)
        + 128 * weight(h)
        + 256 * weight(i)
        + 512 * weight(j)
}

/// The symbol of ten received elements. `None` comes exactly where they are no symbol's word: where an
/// element is lost, or the last three disagree with the number of B among the first seven.
///
/// It adds the elements up to a number and looks into a table by it, with one test for lost ones: ten loads and no
/// branch on an element.
pub fn symbol(w: &[Element; 10]) -> Option<u8>
    ensures some { IfSome result (λ v. (v < 128) × (characters.is_word w.now v ≡ true)) }
    ensures only { (v : ℕ) → v < 128 → characters.is_word w.now v ≡ true → result ≡ Some v }
{
    let symbol = symbol_of(number(w));
    (symbol < 128).then_some(symbol)
}

/// A law: being a symbol's word is being equal to it, and no two symbols have one word.
pub fn words_tell_symbols_apart()
    ensures equal { (w : List Element) (v : ℕ) → (characters.is_word w v ≡ true) ↔ (w ≡ word_of v) }
    ensures apart { (u v : ℕ) → u < 128 → v < 128 → word_of u ≡ word_of v → u ≡ v }
{}

/// A law: where wrong elements went in one sense alone, what was received is the word of the symbol that
/// was sent, or no symbol's word.
pub fn one_way_errors_are_seen()
    ensures words { (u v : ℕ) → u < 128 → v < 128 → IsOneWay (word_of v) (word_of u) → u ≡ v }
    ensures elements { (received : List Element) (u v : ℕ) → u < 128 → v < 128 → IsOneWay (word_of v) received
        → characters.is_word received u ≡ true → u ≡ v }
{}

#[cfg(test)]
mod tests;
