//! The signs of transmissions: those of the dots, and those of each symbol's word.
ghost use Rattle.std.specs.Prelude.{◌≡◌, ◌<◌, ◌≤◌, ◌+◌, ◌*◌, ◌++◌, All, [], drop, length, map, slice_index_or, take, OnOk, OnErr};
ghost use Rattle.std.specs.List.{flat_map};
ghost use Rattle.phasing.specs.Sent.{dots, dot_count, sent};
ghost use Rattle.time_diversity.specs.OnAir.{on_air};
ghost use Rattle.encode_calls.specs.inside.Fronts.{front_signs};
ghost use Rattle.ten_unit.specs.Word.{word_of};
ghost use Rattle.input_lines.specs.ReceiverLine.{sign_of};
ghost use Rattle.line_engine.specs.Determined.{BeginsWith};

use dsc_symbols::phasing::{RX_0, RX_1};
use std::alloc::AllocError;
use std::simd::prelude::*;
use time_diversity::write_on_air;

/// The signs of the short dot pattern (this project's profile).
static DOTS: [u8; 20] = *b"BYBYBYBYBYBYBYBYBYBY";

/// The signs of the long dot pattern (ITU-R M.493, dot pattern).
static LONG_DOTS: [u8; 200] =
    *b"BYBYBYBYBYBYBYBYBYBYBYBYBYBYBYBYBYBYBYBYBYBYBYBYBYBYBYBYBYBYBYBYBYBYBYBYBYBYBYBYBYBYBYBYBYBYBYBYBYBYBYBYBYBYBYBYBYBYBYBYBYBYBYBYBYBYBYBYBYBYBYBYBYBYBYBYBYBYBYBYBYBYBYBYBYBYBYBYBYBYBYBYBYBYBYBYBYBYBYBY";

/// Appends the signs of a dot pattern. The error is want of memory.
#[inline(always)]
fn append_dots(out: &mut Vec<u8>, long: bool) -> Result<(), AllocError>
    ensures signs { OnOk result (out.new.items ≡ out.old.items ++ map sign_of (dots (dot_count long))) }
    ensures kept { OnErr result (out.new.items ≡ out.old.items) }
{
    if long {
        out.extend_from_slice(&LONG_DOTS)?;
    } else {
        out.extend_from_slice(&DOTS)?;
    }
    Ok(())
}

/// The row of a symbol.
fn row(symbol: u8) -> [u8; 16]
    requires { symbol < 128 }
    ensures { result ≡ slice_index_or WORDS symbol [] }
{
    WORDS[symbol as usize]
}

/// The signs of the short dot pattern, and those of the phasing symbols before the first character (ITU-R M.493, dot
/// pattern and phasing sequence).
static FRONT: [u8; 140] =
    *b"BYBYBYBYBYBYBYBYBYBYYBYYYYYBBYYYYYBYYBBYYBYYYYYBBYBYYYBYYBYBYBYYYYYBBYYBYYBYYBYBYBYYYYYBBYBBYYBYYBYYYBYYYYYBBYYYBYBYYBYBYBYYYYYBBYBYBYBYYBYY";

/// The same with the long dot pattern.
static LONG_FRONT: [u8; 320] =
    *b"BYBYBYBYBYBYBYBYBYBYBYBYBYBYBYBYBYBYBYBYBYBYBYBYBYBYBYBYBYBYBYBYBYBYBYBYBYBYBYBYBYBYBYBYBYBYBYBYBYBYBYBYBYBYBYBYBYBYBYBYBYBYBYBYBYBYBYBYBYBYBYBYBYBYBYBYBYBYBYBYBYBYBYBYBYBYBYBYBYBYBYBYBYBYBYBYBYBYBYBYYBYYYYYBBYYYYYBYYBBYYBYYYYYBBYBYYYBYYBYBYBYYYYYBBYYBYYBYYBYBYBYYYYYBBYBBYYBYYBYYYBYYYYYBBYYYBYBYYBYBYBYYYYYBBYBYBYBYYBYY";

/// Appends the signs of a dot pattern, and of the phasing symbols before the first character. The error is want of
/// memory.
#[inline(always)]
fn append_front(out: &mut Vec<u8>, long: bool) -> Result<(), AllocError>
    ensures { OnOk result (out.new.items ≡ out.old.items ++ front_signs long) }
{
    if long {
        out.extend_from_slice(&LONG_FRONT)?;
    } else {
        out.extend_from_slice(&FRONT)?;
    }
    Ok(())
}

/// So many words are written together: those of most calls.
const TOGETHER: usize = 80;

/// The room for that many words, and for what a row has after its word.
pub(crate) const ROOM: usize = 10 * TOGETHER + 6;

/// Writes the signs of a symbol's word from this place on, and six more, which the next word is written over: sixteen
/// signs at once are one move of a processor.
#[inline(always)]
fn write_word(words: &mut [u8; ROOM], at: usize, symbol: u8)
    requires at { at + 16 ≤ ROOM }
    requires symbol { symbol < 128 }
    ensures { take (at + 10) words.new ≡ take at words.old ++ map sign_of (word_of symbol) }
{
    u8x16::from_array(row(symbol)).copy_to_slice(&mut words[at..at + 16]);
}

/// Appends the signs of the words of symbols. The error is want of memory.
#[inline(always)]
fn append_words(out: &mut Vec<u8>, symbols: &[u8]) -> Result<(), AllocError>
    requires length { length symbols.now ≤ TOGETHER }
    requires symbols { All (λ v. v < 128) symbols.now }
    ensures signs { OnOk result (out.new.items ≡ out.old.items ++ map sign_of (flat_map word_of symbols.now)) }
    ensures kept { OnErr result (out.new.items ≡ out.old.items) }
{
    let mut words = [b'-'; ROOM];
    for number in 0..symbols.len() {
        write_word(&mut words, 10 * number, symbols[number]);
    }
    out.extend_from_slice(&words[..10 * symbols.len()])?;
    Ok(())
}

/// Appends the signs of a transmission whose slots show these symbols, each below 128. They are those of the dot
/// pattern, 200 where it is long, and else 20, and ten of each slot's word (ITU-R M.493, dot pattern and the ten-unit
/// code). The error is want of memory: then what was there before stays, and a front of the signs may be after it.
#[inline(always)]
pub fn append_signs(out: &mut Vec<u8>, slots: &[u8], long: bool) -> Result<(), AllocError>
    requires { All (λ v. v < 128) slots.now }
    ensures signs { OnOk result (out.new.items ≡ out.old.items ++ map sign_of (sent slots.now long)) }
    ensures kept { OnErr result (BeginsWith out.new.items out.old.items) }
{
    append_dots(out, long)?;
    for symbols in slots.chunks(TOGETHER) {
        append_words(out, symbols)?;
    }
    Ok(())
}

/// The characters of a list whose words are written together: two slots each.
const CHARACTERS: usize = TOGETHER / 2;

/// Writes the signs of the slots from the first character on: each one's word in its DX slot, and after it the word of
/// the character two before, or of a phasing symbol, in an RX slot (ITU-R M.493, time diversity).
#[inline(always)]
fn write_characters(words: &mut [u8; ROOM], list: &[u8])
    requires length { (4 ≤ length list.now) × (length list.now ≤ CHARACTERS) }
    requires symbols { All (λ v. v < 128) list.now }
    ensures { take (20 * length list.now) words.new ≡ map sign_of (flat_map word_of (drop 12 (on_air list.now))) }
{
    write_word(words, 0, list[0]);
    write_word(words, 10, RX_1);
    write_word(words, 20, list[1]);
    write_word(words, 30, RX_0);
    for place in 2..list.len() {
        write_word(words, 20 * place, list[place]);
        write_word(words, 20 * place + 10, list[place - 2]);
    }
}

/// Appends the signs of the transmission of a list of so few characters. Its words are written over those of the list
/// before, and then appended after the front. The error is want of memory.
#[inline(always)]
fn append_together(
    out: &mut Vec<u8>,
    words: &mut [u8; ROOM],
    list: &[u8],
    long: bool,
) -> Result<(), AllocError>
    requires length { (4 ≤ length list.now) × (length list.now ≤ CHARACTERS) }
    requires symbols { All (λ v. v < 128) list.now }
    ensures { OnOk result (out.new.items ≡ out.old.items ++ map sign_of (sent (on_air list.now) long)) }
{
    append_front(out, long)?;
    write_characters(words, list);
    out.extend_from_slice(&words[..20 * list.len()])?;
    Ok(())
}

/// The same of any list. It isn't inlined, since few lists are so long.
#[inline(never)]
fn append_slots(out: &mut Vec<u8>, list: &[u8], long: bool) -> Result<(), AllocError>
    requires length { (4 ≤ length list.now) × (length list.now ≤ 64) }
    requires symbols { All (λ v. v < 128) list.now }
    ensures { OnOk result (out.new.items ≡ out.old.items ++ map sign_of (sent (on_air list.now) long)) }
{
    let mut symbols = [0; 144];
    let count = write_on_air(list, &mut symbols);
    append_signs(out, &symbols[..count], long)
}

/// Appends the signs of the transmission of a list, which has 4 to 64 symbols below 128 (ITU-R M.493, call sequence and
/// time diversity). The words of most lists are written in their order, straight from the list. The error is want of
/// memory.
#[inline(always)]
pub(crate) fn append_list(
    out: &mut Vec<u8>,
    words: &mut [u8; ROOM],
    list: &[u8],
    long: bool,
) -> Result<(), AllocError>
    requires length { (4 ≤ length list.now) × (length list.now ≤ 64) }
    requires symbols { All (λ v. v < 128) list.now }
    ensures { OnOk result (out.new.items ≡ out.old.items ++ map sign_of (sent (on_air list.now) long)) }
{
    if list.len() > CHARACTERS {
        append_slots(out, list, long)
    } else {
        append_together(out, words, list, long)
    }
}

/// The signs of the word of each symbol from 0 to 127, each with six more (ITU-R M.493, the ten-unit code).
static WORDS: [[u8; 16]; 128] = [
    *b"BBBBBBBYYY------",
    *b"YBBBBBBYYB------",
    *b"BYBBBBBYYB------",
    *b"YYBBBBBYBY------",
    *b"BBYBBBBYYB------",
    *b"YBYBBBBYBY------",
    *b"BYYBBBBYBY------",
    *b"YYYBBBBYBB------",
    *b"BBBYBBBYYB------",
    *b"YBBYBBBYBY------",
    *b"BYBYBBBYBY------",
    *b"YYBYBBBYBB------",
    *b"BBYYBBBYBY------",
    *b"YBYYBBBYBB------",
    *b"BYYYBBBYBB------",
    *b"YYYYBBBBYY------",
    *b"BBBBYBBYYB------",
    *b"YBBBYBBYBY------",
    *b"BYBBYBBYBY------",
    *b"YYBBYBBYBB------",
    *b"BBYBYBBYBY------",
    *b"YBYBYBBYBB------",
    *b"BYYBYBBYBB------",
    *b"YYYBYBBBYY------",
    *b"BBBYYBBYBY------",
    *b"YBBYYBBYBB------",
    *b"BYBYYBBYBB------",
    *b"YYBYYBBBYY------",
    *b"BBYYYBBYBB------",
    *b"YBYYYBBBYY------",
    *b"BYYYYBBBYY------",
    *b"YYYYYBBBYB------",
    *b"BBBBBYBYYB------",
    *b"YBBBBYBYBY------",
    *b"BYBBBYBYBY------",
    *b"YYBBBYBYBB------",
    *b"BBYBBYBYBY------",
    *b"YBYBBYBYBB------",
    *b"BYYBBYBYBB------",
    *b"YYYBBYBBYY------",
    *b"BBBYBYBYBY------",
    *b"YBBYBYBYBB------",
    *b"BYBYBYBYBB------",
    *b"YYBYBYBBYY------",
    *b"BBYYBYBYBB------",
    *b"YBYYBYBBYY------",
    *b"BYYYBYBBYY------",
    *b"YYYYBYBBYB------",
    *b"BBBBYYBYBY------",
    *b"YBBBYYBYBB------",
    *b"BYBBYYBYBB------",
    *b"YYBBYYBBYY------",
    *b"BBYBYYBYBB------",
    *b"YBYBYYBBYY------",
    *b"BYYBYYBBYY------",
    *b"YYYBYYBBYB------",
    *b"BBBYYYBYBB------",
    *b"YBBYYYBBYY------",
    *b"BYBYYYBBYY------",
    *b"YYBYYYBBYB------",
    *b"BBYYYYBBYY------",
    *b"YBYYYYBBYB------",
    *b"BYYYYYBBYB------",
    *b"YYYYYYBBBY------",
    *b"BBBBBBYYYB------",
    *b"YBBBBBYYBY------",
    *b"BYBBBBYYBY------",
    *b"YYBBBBYYBB------",
    *b"BBYBBBYYBY------",
    *b"YBYBBBYYBB------",
    *b"BYYBBBYYBB------",
    *b"YYYBBBYBYY------",
    *b"BBBYBBYYBY------",
    *b"YBBYBBYYBB------",
    *b"BYBYBBYYBB------",
    *b"YYBYBBYBYY------",
    *b"BBYYBBYYBB------",
    *b"YBYYBBYBYY------",
    *b"BYYYBBYBYY------",
    *b"YYYYBBYBYB------",
    *b"BBBBYBYYBY------",
    *b"YBBBYBYYBB------",
    *b"BYBBYBYYBB------",
    *b"YYBBYBYBYY------",
    *b"BBYBYBYYBB------",
    *b"YBYBYBYBYY------",
    *b"BYYBYBYBYY------",
    *b"YYYBYBYBYB------",
    *b"BBBYYBYYBB------",
    *b"YBBYYBYBYY------",
    *b"BYBYYBYBYY------",
    *b"YYBYYBYBYB------",
    *b"BBYYYBYBYY------",
    *b"YBYYYBYBYB------",
    *b"BYYYYBYBYB------",
    *b"YYYYYBYBBY------",
    *b"BBBBBYYYBY------",
    *b"YBBBBYYYBB------",
    *b"BYBBBYYYBB------",
    *b"YYBBBYYBYY------",
    *b"BBYBBYYYBB------",
    *b"YBYBBYYBYY------",
    *b"BYYBBYYBYY------",
    *b"YYYBBYYBYB------",
    *b"BBBYBYYYBB------",
    *b"YBBYBYYBYY------",
    *b"BYBYBYYBYY------",
    *b"YYBYBYYBYB------",
    *b"BBYYBYYBYY------",
    *b"YBYYBYYBYB------",
    *b"BYYYBYYBYB------",
    *b"YYYYBYYBBY------",
    *b"BBBBYYYYBB------",
    *b"YBBBYYYBYY------",
    *b"BYBBYYYBYY------",
    *b"YYBBYYYBYB------",
    *b"BBYBYYYBYY------",
    *b"YBYBYYYBYB------",
    *b"BYYBYYYBYB------",
    *b"YYYBYYYBBY------",
    *b"BBBYYYYBYY------",
    *b"YBBYYYYBYB------",
    *b"BYBYYYYBYB------",
    *b"YYBYYYYBBY------",
    *b"BBYYYYYBYB------",
    *b"YBYYYYYBBY------",
    *b"BYYYYYYBBY------",
    *b"YYYYYYYBBB------",
];
