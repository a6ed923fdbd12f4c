//! The bytes of the DSC sentence of a call, written without the values of its fields in between.
ghost use Rattle.std.specs.Prelude.{◌≡◌, ◌+◌, ◌≤◌, ◌++◌, ◌∷◌};
ghost use Rattle.arrayvec.specs.ArrayVec.{array_vec_len};
ghost use Rattle.line_grammar.specs.Bytes.{comma};
ghost use Rattle.sentence_frame.specs.Texts.{digit_text, perhaps_text, digits};
ghost use Rattle.dsc_sentences.specs.Dsc.{SentenceText};
ghost use Rattle.dsc_sentences.specs.Calls as rows;
ghost use Rattle.dsc_sentences.specs.Calls.{decimals};

use crate::calls::{category_of, first_of, format_of, nature_of, second_of, time_of};
use crate::printing::{append_perhaps_number_field, end_letter, expanded_letter};
use arrayvec::ArrayVec;
use call_grammar::{area_digits, own_end, position_digits};
use call_values::bounds::{HF_CHANNELS, TENS, VHF_CHANNELS};
use call_values::{Body, Call, Field, FieldKind, Kind, Message, Mmsi, Position, To};
use line_grammar::{append, append_digits};
use sentence_frame::{append_field, append_number_field, begin_sentence, close, widened};

/// The bytes of the DSC sentence of a call, CR and LF included; an expansion follows it where the argument says so.
/// They are those that `print` gives of `of_call`, and each digit is written once.
#[tactic(auto, unfolding(crate::specs::Dsc::texts, sentence_frame::specs::Frames::sentence))]
pub fn print_call(c: &Call, expanded: bool) -> ArrayVec<u8, 82>
    ensures { SentenceText (rows.of_call c.now expanded) result.items }
{
    let body = c.body();
    let mut out = begin_sentence(b"$CDDSC");
    append_number_field(&mut out, 2, u32::from(format_of(c)));
    append_address_field(&mut out, &c.address(), &body.sender());
    append_number_field(&mut out, 2, u32::from(category_of(&body)));
    append_number_field(&mut out, 2, u32::from(first_of(&body)));
    append_number_field(&mut out, 2, u32::from(second_of(&body)));
    append_place_field(&mut out, &body);
    append_perhaps_number_field(&mut out, 4, time_of(&body));
    append_distress_field(&mut out, &body);
    append_perhaps_number_field(&mut out, 2, widened(nature_of(&body)));
    append_field(&mut out, end_letter(own_end(c)));
    append_field(&mut out, expanded_letter(expanded));
    close(&mut out);
    out
}

/// Appends the last so many decimal digits of a number.
#[inline(always)]
#[tactic(auto, using(crate::proofs::Places::digits_are_decimals))]
fn append_decimal_text(out: &mut ArrayVec<u8, 82>, width: usize, number: u64)
    requires { array_vec_len out.old + width ≤ 82 }
    ensures items { out.new.items ≡ out.old.items ++ digit_text (decimals width number) }
    ensures len { array_vec_len out.new ≡ array_vec_len out.old + width }
{
    append_digits(out, width, number);
}

/// Appends a comma and the digits of the area that a call is for, else of its sender.
fn append_address_field(out: &mut ArrayVec<u8, 82>, to: &To, sender: &Mmsi)
    requires { array_vec_len out.old + 11 ≤ 82 }
    ensures items { out.new.items ≡ out.old.items ++ comma ∷ digit_text (rows.address_digits to.now sender.now) }
    ensures len { array_vec_len out.new ≡ array_vec_len out.old + 11 }
{
    append(out, b",");
    append_decimal_text(out, 10, address_number(to, sender));
}

/// The number of the area that a call is for, else of its sender.
fn address_number(to: &To, sender: &Mmsi) -> u64
    ensures { decimals 10 result ≡ rows.address_digits to.now sender.now }
{
    match to {
        To::Area(area) => area_digits(area),
        To::All | To::Group(_) | To::One(_) => 10 * u64::from(sender.number()),
    }
}

/// Appends a comma, and the digits of a position, or of two frequencies or channels.
fn append_place_field(out: &mut ArrayVec<u8, 82>, body: &Body)
    requires { array_vec_len out.old + 17 ≤ 82 }
    ensures items { out.new.items ≡ out.old.items ++ comma ∷ digit_text (rows.place_of body.now) }
    ensures len { array_vec_len out.new ≤ array_vec_len out.old + 17 }
{
    append(out, b",");
    match body {
        Body::Alert(casualty) | Body::Distress { casualty, .. } => append_position(
            out,
            &casualty.position,
        ),
        Body::Request { message, .. } => append_message(out, message),
        Body::Service {
            kind: Kind::Position(position, _),
            ..
        } => append_position(out, position),
        Body::Service { .. } => {}
    }
}

/// Appends the digits of two frequencies or channels, or of a position.
fn append_message(out: &mut ArrayVec<u8, 82>, message: &Message)
    requires { array_vec_len out.old + 16 ≤ 82 }
    ensures items { out.new.items ≡ out.old.items ++ digit_text (rows.message_place message.now) }
    ensures len { array_vec_len out.new ≤ array_vec_len out.old + 16 }
{
    match message {
        Message::Fields(f1, f2) => {
            append_frequency(out, f1);
            append_frequency(out, f2);
        }
        Message::At(position) => append_position(out, position),
    }
}

/// Appends the digits of a frequency or channel, at most eight.
fn append_frequency(out: &mut ArrayVec<u8, 82>, field: &Field)
    requires { array_vec_len out.old + 8 ≤ 82 }
    ensures items { out.new.items ≡ out.old.items ++ digit_text (rows.frequency_place field.now) }
    ensures len { array_vec_len out.new ≤ array_vec_len out.old + 8 }
{
    match field.kind() {
        FieldKind::Absent => {}
        FieldKind::Hundreds(number) => append_decimal_text(out, 6, u64::from(number)),
        FieldKind::Hf(number) => append_decimal_text(out, 6, u64::from(HF_CHANNELS + number)),
        FieldKind::Vhf(number) => append_decimal_text(
            out,
            6,
            u64::from(VHF_CHANNELS + u32::from(number)),
        ),
        FieldKind::Tens(number) => append_decimal_text(out, 8, u64::from(TENS + number)),
    }
}

/// Appends a position's ten digits, nines where it isn't known.
fn append_position(out: &mut ArrayVec<u8, 82>, position: &Position)
    requires { array_vec_len out.old + 10 ≤ 82 }
    ensures items { out.new.items ≡ out.old.items ++ digit_text (rows.position_place position.now) }
    ensures len { array_vec_len out.new ≡ array_vec_len out.old + 10 }
{
    let number = match position.known() {
        Some(fix) => position_digits(&fix),
        None => 9_999_999_999,
    };
    append_decimal_text(out, 10, number);
}

/// Appends a comma, and the digits of another ship in distress where there is one.
fn append_distress_field(out: &mut ArrayVec<u8, 82>, body: &Body)
    requires { array_vec_len out.old + 11 ≤ 82 }
    ensures items { out.new.items
        ≡ out.old.items ++ comma ∷ perhaps_text digit_text (rows.distress_of body.now) }
    ensures len { array_vec_len out.new ≤ array_vec_len out.old + 11 }
{
    append(out, b",");
    if let Body::Distress { casualty, .. } = body {
        append_decimal_text(out, 10, 10 * u64::from(casualty.mmsi.number()));
    }
}
