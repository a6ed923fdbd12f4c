//! The bytes of a DSE sentence.
ghost use Rattle.std.specs.Prelude.{◌≡◌, ◌+◌, ◌<◌, ◌≤◌, ◌++◌};
ghost use Rattle.arrayvec.specs.ArrayVec.{array_vec_len};
ghost use Rattle.sentence_frame.specs.Frames.{behind_commas};
ghost use Rattle.dsc_sentences.specs.Dse.{SentenceText, flag_text, set_texts};

use crate::dse::{DseSentence, Flag};
use arrayvec::ArrayVec;
use expansion::last_digits::{COURSE, ENHANCED_POSITION, SPEED};
use expansion::{Part, PartKind};
use sentence_frame::{
    append_digits_field, append_field, append_number_field, begin_sentence, close,
};

/// The bytes of a DSE sentence, CR and LF included.
#[tactic(auto, unfolding(crate::specs::Dse::texts, sentence_frame::specs::Frames::sentence))]
pub fn print_dse(s: &DseSentence) -> ArrayVec<u8, 82>
    ensures { SentenceText s.now result.items }
{
    let fields = &s.fields;
    let mut out = begin_sentence(b"$CDDSE");
    append_field(&mut out, b"1");
    append_field(&mut out, b"1");
    append_field(&mut out, flag_letter(fields.flag));
    append_digits_field(&mut out, &fields.address);
    append_set_field(&mut out, ENHANCED_POSITION, 8, &fields.expansion.enhanced());
    append_set_field(&mut out, SPEED, 4, &fields.expansion.speed());
    append_set_field(&mut out, COURSE, 4, &fields.expansion.course());
    close(&mut out);
    out
}

/// The letter of a flag.
fn flag_letter(flag: Flag) -> &'static [u8]
    ensures { result.now ≡ flag_text flag }
{
    match flag {
        Flag::A => b"A",
        Flag::Q => b"Q",
        Flag::R => b"R",
    }
}

/// Appends the code and the data of a set, each after a comma, where it is there.
fn append_set_field(out: &mut ArrayVec<u8, 82>, set: u8, width: usize, part: &Part)
    requires room { array_vec_len out.old + width + 4 < 82 }
    ensures items { out.new.items ≡ out.old.items ++ behind_commas (set_texts set width part.now) }
    ensures len { array_vec_len out.new ≤ array_vec_len out.old + width + 4 }
{
    match part.kind() {
        PartKind::LeftOut => {}
        PartKind::NoInformation => {
            append_number_field(out, 2, u32::from(set));
            append_field(out, b"");
        }
        PartKind::Digits(number) => {
            append_number_field(out, 2, u32::from(set));
            append_number_field(out, width, number);
        }
    }
}
