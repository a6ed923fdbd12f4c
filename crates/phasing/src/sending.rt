//! The elements of a transmission: its dot pattern, and the words of its slots.
ghost use Rattle.std.specs.Prelude.{◌≡◌, ◌+◌, ◌*◌, ◌<◌, ◌≤◌, ◌++◌, All, length};
ghost use Rattle.arrayvec.specs.ArrayVec.{array_vec_len};
ghost use Rattle.phasing.specs.Sent.{dots, dot_count, sent};
ghost use Rattle.phasing.specs.Sent as pattern;

use arrayvec::ArrayVec;
use ten_unit::{Element, word};

/// The element of the dot with this number, which is counted from 0.
fn dot(number: u16) -> Element
    ensures { result ≡ pattern.dot number }
{
    if number % 2 == 0 {
        Element::B
    } else {
        Element::Y
    }
}

/// The dot pattern of so many elements, at most 200.
fn dot_pattern(count: u16) -> ArrayVec<Element, 1600>
    requires { count ≤ 200 }
    ensures dots { result.items ≡ dots count }
    ensures length { array_vec_len result ≡ count }
{
    let mut elements = ArrayVec::new();
    for number in 0..count {
        elements.push(dot(number));
    }
    elements
}

/// Appends the ten elements of a word.
fn append(elements: &mut ArrayVec<Element, 1600>, word: &[Element; 10])
    requires { array_vec_len elements.old + 10 ≤ 1600 }
    ensures items { elements.new.items ≡ elements.old.items ++ word.now }
    ensures length { array_vec_len elements.new ≡ array_vec_len elements.old + 10 }
{
    elements.try_extend_from_slice(word).unwrap();
}

/// The elements of a transmission, of which the slots show these symbols: at most 140, each below 128. The dot pattern
/// of 200 elements where it is long, and else of 20, begins with B, and the slots' words follow it (ITU-R M.493, dot
/// pattern and phasing).
pub fn transmission(slots: &[u8], long: bool) -> ArrayVec<Element, 1600>
    requires length { length slots.now ≤ 140 }
    requires symbols { All (λ v. v < 128) slots.now }
    ensures sent { result.items ≡ sent slots.now long }
    ensures length { array_vec_len result ≡ dot_count long + 10 * length slots.now }
{
    let mut elements = dot_pattern(if long { 200 } else { 20 });
    for symbol in slots {
        append(&mut elements, &word(*symbol));
    }
    elements
}
