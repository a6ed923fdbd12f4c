//! The definitions' own programs, with which tests compare the faster ones.
ghost use Rattle.std.specs.Prelude.{◌≡◌, ℕ, ◌<◌, ◌≤◌, IfSome, Some, true};
ghost use Rattle.ten_unit.specs.Word as characters;
ghost use Rattle.ten_unit.specs.inside.Carried.{ones, value_of};

use crate::{Element, is_word};

/// 1 for `Y`; 0 for `B` and for a lost element.
fn one(element: Element) -> u8
    ensures value { result ≡ ones element }
    ensures most { result ≤ 1 }
{
    match element {
        Element::Y => 1,
        Element::B | Element::Lost => 0,
    }
}

/// The number that the seven information elements carry, a lost one read as B.
fn value(w: &[Element; 10]) -> u8
    ensures value { result ≡ value_of w.now }
    ensures most { result < 128 }
{
    let [a, b, c, d, e, f, g, _, _, _] = *w;
    one(a) + 2 * one(b) + 4 * one(c) + 8 * one(d) + 16 * one(e) + 32 * one(f) + 64 * one(g)
}

/// The symbol of ten received elements: what they carry, where they are its word.
pub(crate) fn symbol(w: &[Element; 10]) -> Option<u8>
    ensures some { IfSome result (λ v. (v < 128) × (characters.is_word w.now v ≡ true)) }
    ensures only { (v : ℕ) → v < 128 → characters.is_word w.now v ≡ true → result ≡ Some v }
{
    let value = value(w);
    is_word(w, value).then_some(value)
}
