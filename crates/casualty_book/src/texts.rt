//! The line of a row.
ghost use Rattle.std.specs.Prelude.{◌≡◌, ◌+◌, ◌<◌, ◌≤◌, ◌++◌, length};
ghost use Rattle.arrayvec.specs.ArrayVec.{array_vec_len};
ghost use Rattle.sentence_frame.specs.Texts.{digit_text};
ghost use Rattle.casualty_book.specs.Rows.{IsLawful};
ghost use Rattle.casualty_book.specs.Texts as texts;
ghost use Rattle.casualty_book.specs.inside.Packing.{digits_in, digits_of, told, unpack};

use crate::packing::{FIRST_WEIGHT, Packed, pack};
use crate::rows::{BookKind, BookRow};
use arrayvec::ArrayVec;
use line_grammar::{append, append_digits};

/// The text of a row, without LF.
pub fn put_row(r: &BookRow) -> ArrayVec<u8, 160>
    requires { IsLawful r.now }
    ensures { result.items ≡ texts.row_text r.now }
{
    put_key(&pack(r))
}

/// The text of a key's row, without LF: its digits are written straight from the key's numbers.
#[tactic(auto, unfolding(crate::specs::Texts::row_text))]
pub(crate) fn put_key(key: &Packed) -> ArrayVec<u8, 160>
    ensures { result.items ≡ texts.row_text (unpack key.now) }
{
    let mut out = ArrayVec::new();
    append(&mut out, b"casualty ");
    append_packed(&mut out, 16, key.casualty);
    append(&mut out, b" ");
    append(&mut out, kind_text(key.kind));
    append(&mut out, b" from=");
    append_packed(&mut out, 16, key.from);
    append(&mut out, b" nature=");
    append_code_or_hyphen(&mut out, 2, u16::from(key.nature));
    append(&mut out, b" pos=");
    append_packed_or_hyphen(&mut out, key.place);
    append(&mut out, b" time=");
    append_code_or_hyphen(&mut out, 4, key.time);
    append(&mut out, b" then=");
    append_code_or_hyphen(&mut out, 2, u16::from(key.second));
    out
}

/// The word of a kind.
fn kind_text(kind: BookKind) -> &'static [u8]
    ensures word { result.now ≡ texts.kind_text kind }
    ensures length { length result.now ≤ 8 }
{
    match kind {
        BookKind::Alert => b"alert",
        BookKind::Ack => b"ack",
        BookKind::Relay => b"relay",
        BookKind::RelayAck => b"relayack",
    }
}

/// Appends the number of a code in so many digits, or a hyphen where there is none.
fn append_code_or_hyphen(out: &mut ArrayVec<u8, 160>, width: usize, code: u16)
    requires some { 0 < width }
    requires room { array_vec_len out.old + width ≤ 160 }
    ensures items { out.new.items ≡ out.old.items ++ texts.number_or_hyphen width (told code) }
    ensures len { array_vec_len out.new ≤ array_vec_len out.old + width }
{
    match code.checked_sub(1) {
        None => append(out, b"-"),
        Some(number) => append_digits(out, width, u64::from(number)),
    }
}

/// Appends the digits of a number, or a hyphen where there are none.
fn append_packed_or_hyphen(out: &mut ArrayVec<u8, 160>, number: u64)
    requires { array_vec_len out.old + 16 ≤ 160 }
    ensures items { out.new.items ≡ out.old.items ++ texts.digits_or_hyphen (digits_of number) }
    ensures len { array_vec_len out.new ≤ array_vec_len out.old + 16 }
{
    if number < FIRST_WEIGHT {
        append(out, b"-");
    } else {
        append_packed(out, 16, number);
    }
}

/// Appends at most so many digits of a number.
#[tactic(auto, unfolding(crate::specs::inside::Packing::digits_in))]
fn append_packed(out: &mut ArrayVec<u8, 160>, slots: usize, number: u64)
    requires { array_vec_len out.old + slots ≤ 160 }
    ensures items { out.new.items ≡ out.old.items ++ digit_text (digits_in slots number) }
    ensures len { array_vec_len out.new ≤ array_vec_len out.old + slots }
{
    let first = number / FIRST_WEIGHT;
    if slots > 0 && first > 0 {
        out.push(b'0' + (first - 1) as u8);
        append_packed(out, slots - 1, number % FIRST_WEIGHT * 16);
    }
}
