//! The bytes of a DSC sentence.
ghost use Rattle.std.specs.Prelude.{◌≡◌, ◌+◌, ◌<◌, ◌≤◌, ◌++◌, ◌∷◌};
ghost use Rattle.arrayvec.specs.ArrayVec.{array_vec_len};
ghost use Rattle.line_grammar.specs.Bytes.{comma};
ghost use Rattle.sentence_frame.specs.Texts.{digits, perhaps_text};
ghost use Rattle.dsc_sentences.specs.Dsc.{SentenceText, end_text, expanded_text};

use crate::dsc::DscSentence;
use arrayvec::ArrayVec;
use call_values::End;
use sentence_frame::{
    append_digits_field, append_field, append_number_field, append_perhaps_digits_field,
    begin_sentence, close, widened,
};

/// The bytes of a DSC sentence, CR and LF included.
#[tactic(auto, unfolding(crate::specs::Dsc::texts, sentence_frame::specs::Frames::sentence))]
pub fn print(s: &DscSentence) -> ArrayVec<u8, 82>
    ensures { SentenceText s.now result.items }
{
    let fields = &s.fields;
    let mut out = begin_sentence(b"$CDDSC");
    append_number_field(&mut out, 2, u32::from(fields.format));
    append_digits_field(&mut out, &fields.address);
    append_perhaps_number_field(&mut out, 2, widened(fields.category));
    append_perhaps_number_field(&mut out, 2, widened(fields.first));
    append_perhaps_number_field(&mut out, 2, widened(fields.second));
    append_digits_field(&mut out, fields.place.as_slice());
    append_perhaps_number_field(&mut out, 4, fields.time);
    append_perhaps_digits_field(&mut out, &fields.distress);
    append_perhaps_number_field(&mut out, 2, widened(fields.nature));
    append_field(&mut out, end_letter(fields.end));
    append_field(&mut out, expanded_letter(fields.expanded));
    close(&mut out);
    out
}

/// The letter of an end of sequence.
pub fn end_letter(end: End) -> &'static [u8]
    ensures { result.now ≡ end_text end }
{
    match end {
        End::Ask => b"R",
        End::Reply => b"B",
        End::Plain => b"S",
    }
}

/// The letter of a call that an expansion follows; none of another.
pub fn expanded_letter(expanded: bool) -> &'static [u8]
    ensures { result.now ≡ expanded_text expanded }
{
    if expanded { b"E" } else { b"" }
}

/// Appends a comma, and so many digits where there is a number.
pub fn append_perhaps_number_field(out: &mut ArrayVec<u8, 82>, width: usize, number: Option<u16>)
    requires { array_vec_len out.old + width < 82 }
    ensures items { out.new.items ≡ out.old.items ++ comma ∷ perhaps_text (digits width) number }
    ensures len { array_vec_len out.new ≤ array_vec_len out.old + 1 + width }
{
    match number {
        Some(number) => append_number_field(out, width, u32::from(number)),
        None => append_field(out, b""),
    }
}
