//! The lists of calls of ITU-R M.493: how calls are spelled in symbols and read back, symbol by symbol.
#![tactic(auto)]

mod fields;
mod forms;
mod individuals;
mod judging;
mod laws;
mod messages;
mod reading;
mod spelling;
mod symbols;
mod walking;

pub use laws::{
    checks_tell_ends, formats_begin_calls, fronts_differ, lists_are_characters, lists_are_short,
    one_check_place, one_end_place, one_list, open_is_not_done, read_back,
};
pub use reading::read;
pub use spelling::{
    area_digits, category_symbol, end_of, end_symbol, format_of, own_end, position_digits, spell,
    spell_into,
};
pub use symbol_reader::ReadRefusal;
pub use walking::{Step, Walk};
