//! Laws: each function here does nothing, and its contract is a theorem over definitions.
ghost use Rattle.std.specs.Prelude.{◌≡◌, ℕ, List, Result, Ok};
ghost use Rattle.sentence_frame.specs.declared.refusals.SentenceRefusal.{SentenceRefusal};
ghost use Rattle.dsc_sentences.specs.declared.dsc.DscFields.{DscFields};
ghost use Rattle.dsc_sentences.specs.declared.dse.DseFields.{DseFields};
ghost use Rattle.dsc_sentences.specs.Dsc as dsc;
ghost use Rattle.dsc_sentences.specs.Dse as dse;

/// The law that of the bytes of a sentence, reading answers this sentence.
pub fn sentences_are_read_back()
    ensures dsc { (s : DscFields) (bytes : List ℕ) (answer : Result DscFields SentenceRefusal) → dsc.IsDsc s
        → dsc.SentenceText s bytes → dsc.IsReading bytes answer → answer ≡ Ok s }
    ensures dse { (s : DseFields) (bytes : List ℕ) (answer : Result DseFields SentenceRefusal) → dse.IsDse s
        → dse.SentenceText s bytes → dse.IsReading bytes answer → answer ≡ Ok s }
{}

/// The law that bytes of which a sentence is read are the bytes that are printed of it.
pub fn what_is_read_is_printed_again()
    ensures dsc { (s : DscFields) (bytes printed : List ℕ) → dsc.IsReading bytes (Ok s) → dsc.SentenceText s printed
        → printed ≡ bytes }
    ensures dse { (s : DseFields) (bytes printed : List ℕ) → dse.IsReading bytes (Ok s) → dse.SentenceText s printed
        → printed ≡ bytes }
{}

/// The law that no two sentences have the same bytes.
pub fn texts_tell_sentences_apart()
    ensures dsc { (s t : DscFields) (bytes : List ℕ) → dsc.IsDsc s → dsc.IsDsc t → dsc.SentenceText s bytes
        → dsc.SentenceText t bytes → s ≡ t }
    ensures dse { (s t : DseFields) (bytes : List ℕ) → dse.IsDse s → dse.IsDse t → dse.SentenceText s bytes
        → dse.SentenceText t bytes → s ≡ t }
{}
