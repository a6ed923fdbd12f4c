//! Verdicts on lines that are to be sentences, and their texts.
ghost use Rattle.std.specs.Prelude.{◌≡◌, ◌+◌, ◌≤◌, ◌++◌, ◌∷◌, length, decimal};
ghost use Rattle.arrayvec.specs.ArrayVec.{array_vec_len};
ghost use Rattle.line_grammar.specs.Bytes.{space};
ghost use Rattle.dsc_sentences.specs.Verdicts as verdicts;
ghost use Rattle.sentence_frame.specs.declared.refusals.SentenceRefusal.TheVariants.{Checksum};

use crate::hearing::sentence_on;
use arrayvec::ArrayVec;
use line_grammar::{append, append_number};
use sentence_frame::{SentenceRefusal, hexadecimal};

/// The verdict on a sentence.
#[derive(Clone, Copy, Debug, PartialEq, Eq)]
pub enum Verdict {
    Accepted,
    Refused(SentenceRefusal),
}

/// The verdict on a line, which has no LF: one CR at its end is dropped, and CR LF are added. It is read as a DSE
/// sentence where it begins with `$CDDSE`, and else as a DSC sentence.
pub fn verdict_on(line: &[u8]) -> Verdict
    ensures { result ≡ verdicts.verdict_of line.now }
{
    match sentence_on(line) {
        Ok(_) => Verdict::Accepted,
        Err(refusal) => Verdict::Refused(refusal),
    }
}

/// The text of a verdict, without LF: `accepted`, or `refused` and why.
pub fn put_verdict(verdict: &Verdict) -> ArrayVec<u8, 64>
    ensures { result.items ≡ verdicts.verdict_text verdict.now }
{
    let mut out = ArrayVec::new();
    match verdict {
        Verdict::Accepted => append(&mut out, b"accepted"),
        Verdict::Refused(refusal) => {
            append(&mut out, b"refused ");
            append_refusal(&mut out, refusal);
        }
    }
    out
}

/// Appends why a sentence is refused.
fn append_refusal(out: &mut ArrayVec<u8, 64>, refusal: &SentenceRefusal)
    requires { array_vec_len out.old ≤ 8 }
    ensures { out.new.items ≡ out.old.items ++ verdicts.refusal_text refusal.now }
{
    match refusal {
        SentenceRefusal::TooLong(length) => append_counted(out, b"too long ", *length),
        SentenceRefusal::Start => append(out, b"start"),
        SentenceRefusal::End => append(out, b"end"),
        SentenceRefusal::Checksum { want, got } => append_checksums(out, *want, *got),
        SentenceRefusal::FieldCount(count) => append_counted(out, b"fields ", *count),
        SentenceRefusal::Field(k) => append_counted(out, b"field ", *k),
    }
}

/// Appends a text and a number.
fn append_counted(out: &mut ArrayVec<u8, 64>, text: &[u8], number: usize)
    requires { array_vec_len out.old + length text.now + 20 ≤ 64 }
    ensures { out.new.items ≡ out.old.items ++ (text.now ++ decimal number) }
{
    append(out, text);
    append_number(out, number as u64);
}

/// Appends that the checksum ought to be another one than the one that is written.
fn append_checksums(out: &mut ArrayVec<u8, 64>, want: u8, got: u8)
    requires { array_vec_len out.old ≤ 8 }
    ensures { out.new.items ≡ out.old.items ++ verdicts.refusal_text (Checksum want got) }
{
    append(out, b"checksum ");
    append(out, &checksums(want, got));
}

/// Two checksums, each in two capital hexadecimal digits.
fn checksums(want: u8, got: u8) -> [u8; 5]
    ensures { result ≡ verdicts.two_hexadecimal want ++ (space ∷ verdicts.two_hexadecimal got) }
{
    [
        hexadecimal(want / 16),
        hexadecimal(want % 16),
        b' ',
        hexadecimal(got / 16),
        hexadecimal(got % 16),
    ]
}
