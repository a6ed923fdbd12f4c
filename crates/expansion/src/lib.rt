//! Expansions: what may follow a call on air, how it is spelled in symbols and read back, symbol by symbol.
#![tactic(auto)]

pub mod bounds;
pub mod last_digits;
mod laws;
mod parts;
mod readers;
mod reading;
mod specifiers;
mod spelling;
mod values;

pub use laws::{
    bounds_of_sets, expansion_numbers, fronts_differ, lists_are_characters, lists_are_short,
    one_list, read_back,
};
pub use parts::{Part, PartKind};
pub use reading::{read_checked, read_sets};
pub use spelling::spell_sets;
pub use symbol_reader::ReadRefusal;
pub use values::{Expansion, Sets};
