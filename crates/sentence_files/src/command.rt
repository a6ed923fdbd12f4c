//! The command `sentences`.
ghost use Rattle.std.specs.Prelude.{◌≡◌, ◌||◌, ◌++◌, ◌∷◌, not, [], OnOk};
ghost use Rattle.line_grammar.specs.Bytes.{line_feed};
ghost use Rattle.dsc_sentences.specs.Verdicts.{verdict_of, verdict_text};
ghost use Rattle.sentence_files.specs.Telling.{call_sentences, is_accepted, is_well, line_text, sentences_meaning};
ghost use Rattle.sentence_files.specs.inside.Progress.{HasTold};

use dsc_sentences::{Verdict, put_sentences, put_verdict, verdict_on};
use input_lines::{CallLine, SentenceLine, Status, sentence_line};
use line_engine::{Command, Refusal};
use std::alloc::AllocError;

/// The command that writes the sentences of each call, and a verdict on each sentence.
#[derive(Drop)]
pub struct Sentences {
    pub(crate) refused: bool,
}

/// Whether a sentence is accepted.
fn is_accepted(verdict: &Verdict) -> bool
    ensures { result ≡ is_accepted verdict.now }
{
    match verdict {
        Verdict::Accepted => true,
        Verdict::Refused(_) => false,
    }
}

/// Appends the sentences of what a line of calls says: those of a call and of the expansion after it.
fn append_sentences(out: &mut Vec<u8>, says: &CallLine) -> Result<(), AllocError>
    ensures { OnOk result (out.new.items ≡ out.old.items ++ call_sentences says.now) }
{
    match says {
        CallLine::Nothing => Ok(()),
        CallLine::Call { call, expansion } => {
            out.extend_from_slice(&put_sentences(call, expansion))?;
            Ok(())
        }
    }
}

impl Sentences {
    /// The command before its first line.
    pub fn new() -> Sentences
        ensures { HasTold result.refused [] [] }
    {
        Sentences { refused: false }
    }

    /// Appends the verdict on a sentence.
    fn judge(&mut self, sentence: &[u8], out: &mut Vec<u8>) -> Result<(), AllocError>
        ensures text { OnOk result (out.new.items
            ≡ out.old.items ++ (verdict_text (verdict_of sentence.now) ++ line_feed ∷ [])) }
        ensures refused { OnOk result (self.new.refused
            ≡ (self.old.refused || not (is_accepted (verdict_of sentence.now)))) }
    {
        let verdict = verdict_on(sentence);
        out.extend_from_slice(&put_verdict(&verdict))?;
        out.push(b'\n')?;
        self.refused |= !is_accepted(&verdict);
        Ok(())
    }

    /// Appends what a line gives.
    fn append_answer(
        &mut self,
        says: &SentenceLine<'_>,
        out: &mut Vec<u8>,
    ) -> Result<(), AllocError>
        ensures text { OnOk result (out.new.items ≡ out.old.items ++ line_text says.now) }
        ensures refused { OnOk result (self.new.refused ≡ (self.old.refused || not (is_well says.now))) }
    {
        match says {
            SentenceLine::Said(says) => append_sentences(out, says),
            SentenceLine::Sentence(sentence) => self.judge(sentence, out),
        }
    }
}

impl Command for Sentences {
    ghost meaning = { sentences_meaning };

    ghost stands_for = { λ command lines text. HasTold command.refused lines text };

    fn take(&mut self, line: &[u8], out: &mut Vec<u8>) -> Result<(), Refusal> {
        match sentence_line(line) {
            Ok(says) => {
                self.append_answer(&says, out)?;
                Ok(())
            }
            Err(n) => Err(Refusal::Column(n)),
        }
    }

    fn finish(&mut self, _out: &mut Vec<u8>) -> Result<Status, AllocError> {
        Ok(Status::of(!self.refused))
    }

    ghost gives = { λ command lines text stands. record {
      said = stands.said;
      are_lines = stands.are_lines;
      text_is = stands.text_is;
    } };
}
