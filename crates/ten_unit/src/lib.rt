//! Characters of ITU-R M.493: a symbol from 0 to 127 in ten elements.
#![tactic(auto)]

mod character;
mod packing;
mod table;

pub use character::{
    ELEMENTS, Element, element_of, is_same, is_word, one_way_errors_are_seen, symbol, word,
    words_tell_symbols_apart,
};
pub use packing::{Planes, pack_elements, pack_signs, sign_planes, symbol_at};

#[cfg(test)]
mod plain;
