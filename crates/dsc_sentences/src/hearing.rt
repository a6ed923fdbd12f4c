//! The sentence of a line that a receiver gave.
ghost use Rattle.std.specs.Prelude.{◌≡◌, ◌≤◌, ◌++◌, ◌∷◌, [], length};
ghost use Rattle.line_grammar.specs.Bytes.{line_feed, carriage_return};
ghost use Rattle.dsc_sentences.specs.Heard.{IsHeard};
ghost use Rattle.dsc_sentences.specs.inside.Hearing.{IsHeardAsDsc, IsHeardAsDse};
ghost use Rattle.dsc_sentences.specs.Verdicts as verdicts;

use crate::dsc::DscSentence;
use crate::dse_reading::read_dse;
use crate::reading::fields_read;
use arrayvec::ArrayVec;
use line_grammar::append;
use sentence_frame::{LONGEST_SENTENCE, SentenceRefusal};

/// The DSC sentence of a line that has no LF: one CR at its end is dropped, and CR LF are added. A line that begins
/// with `$CDDSE` is read as a DSE sentence, and where it is accepted the answer is None. A refused line gives its first
/// refusal.
///
/// What reads the line is inlined, so that a verdict, which drops the values, costs none of their moves.
#[inline(always)]
pub fn sentence_on(line: &[u8]) -> Result<Option<DscSentence>, SentenceRefusal>
    ensures { IsHeard line.now result }
{
    let text = without_return(line);
    if text.len() > LONGEST_SENTENCE - 2 {
        return Err(SentenceRefusal::TooLong(text.len() + 2));
    }
    let mut bytes = ArrayVec::new();
    append_line_end(&mut bytes, text);
    if line.starts_with(b"$CDDSE") {
        heard_as_dse(bytes.as_slice())
    } else {
        heard_as_dsc(bytes.as_slice())
    }
}

/// A line without one CR at its end.
fn without_return(line: &[u8]) -> &[u8]
    ensures { result.now ≡ verdicts.without_return line.now }
{
    match line.split_last() {
        Some((b'\r', text)) => text,
        _ => line,
    }
}

/// Appends a text with CR and LF to nothing.
fn append_line_end(bytes: &mut ArrayVec<u8, LONGEST_SENTENCE>, text: &[u8])
    requires text { length text.now ≤ 80 }
    requires nothing { bytes.old.items ≡ [] }
    ensures { bytes.new.items ≡ text.now ++ carriage_return ∷ line_feed ∷ [] }
{
    append(bytes, text);
    append(bytes, b"\r\n");
}

/// What is heard of bytes that are read as a DSC sentence.
#[inline(always)]
fn heard_as_dsc(bytes: &[u8]) -> Result<Option<DscSentence>, SentenceRefusal>
    ensures { IsHeardAsDsc bytes.now result }
{
    let fields = fields_read(bytes)?;
    Ok(Some(DscSentence { fields }))
}

/// What is heard of bytes that are read as a DSE sentence: no DSC sentence, or a refusal.
fn heard_as_dse(bytes: &[u8]) -> Result<Option<DscSentence>, SentenceRefusal>
    ensures { IsHeardAsDse bytes.now result }
{
    let _sentence = read_dse(bytes)?;
    Ok(None)
}
